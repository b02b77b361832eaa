// By form of a letter: its words field by field in the image's order, then its records.
ghost use Rattle.std.specs.Prelude.{◌≡◌, ◌≤◌, length};
ghost use Rattle.letter.specs.Place.{place_form, head_words};
ghost use Rattle.letter.specs.Lent.{PlaceSized};
ghost use Rattle.letter.specs.Faults.{
  pn_fits,
  last_fits,
  first_fits,
  unagreed_fits,
  count_fits,
  head_fault,
};

use crate::{COUNT, FIRST, KIND, LAST, PN, UNAGREED, kind_of, records};
use rules::model::Kind;
use values::{Field, MOST_NUMBER, MOST_PN};

// What each kind asks of its pn ..
fn is_pn(k: Kind, pn: u64) -> bool
    ensures { result ≡ pn_fits k pn }
{
    match k {
        Kind::Collect => pn <= MOST_PN,
        Kind::Last => pn <= MOST_PN,
        Kind::Begin => pn <= MOST_PN,
        Kind::Accept => pn <= MOST_PN,
        Kind::Commit => pn <= MOST_PN,
        Kind::Lease => pn == 0,
        Kind::LeaseAck => pn == 0,
    }
}

// .. of its last ..
fn is_last(k: Kind, last: u64) -> bool
    ensures { result ≡ last_fits k last }
{
    match k {
        Kind::Collect => last <= MOST_NUMBER,
        Kind::Last => last <= MOST_NUMBER,
        Kind::Begin => last < MOST_NUMBER,
        Kind::Accept => last <= MOST_NUMBER,
        Kind::Commit => last <= MOST_NUMBER,
        Kind::Lease => last <= MOST_NUMBER,
        Kind::LeaseAck => last <= MOST_NUMBER,
    }
}

// .. of its first ..
fn is_first(k: Kind, first: u64, last: u64) -> bool
    ensures { result ≡ first_fits k first last }
{
    let carried = values::is_first(first, last);
    match k {
        Kind::Collect => first == 0,
        Kind::Last => carried,
        Kind::Begin => carried,
        Kind::Accept => first == 0,
        Kind::Commit => carried,
        Kind::Lease => first == 0,
        Kind::LeaseAck => first == 0,
    }
}

// .. of its unagreed pn ..
fn is_unagreed(k: Kind, unagreed: u64) -> bool
    ensures { result ≡ unagreed_fits k unagreed }
{
    match k {
        Kind::Collect => unagreed == 0,
        Kind::Last => unagreed <= MOST_PN,
        Kind::Begin => unagreed == 0,
        Kind::Accept => unagreed == 0,
        Kind::Commit => unagreed == 0,
        Kind::Lease => unagreed == 0,
        Kind::LeaseAck => unagreed == 0,
    }
}

// .. and of how many records it has.
fn is_count(k: Kind, j: u32, first: u64, last: u64, unagreed: u64, count: u64) -> bool
    ensures { result ≡ count_fits k j first last unagreed count }
{
    let most = j as u64;
    let held = values::is_count(j, first, last, count);
    let agreed = values::is_agreed(j, first, last, count);
    let full = values::is_full(j, first, last, count);
    match k {
        Kind::Collect => count == 0,
        Kind::Last => held & ((unagreed == 0) | full),
        Kind::Begin => (count == 1) & (count <= most),
        Kind::Accept => count == 0,
        Kind::Commit => agreed,
        Kind::Lease => count == 0,
        Kind::LeaseAck => count == 0,
    }
}

// The first of a letter's words that is not by form.
pub fn head_fault(w: &[u64], j: u32) -> Option<Field>
    requires { head_words ≤ length w.now }
    ensures { result ≡ head_fault j w.now }
{
    let number = w[KIND];
    let k = kind_of(number);
    let kind = (1 <= number) & (number <= 7);
    let pn = is_pn(k, w[PN]);
    let last = is_last(k, w[LAST]);
    let first = is_first(k, w[FIRST], w[LAST]);
    let unagreed = is_unagreed(k, w[UNAGREED]);
    let count = is_count(k, j, w[FIRST], w[LAST], w[UNAGREED], w[COUNT]);
    let f = values::unless(count, Field::Count, None);
    let f = values::unless(unagreed, Field::Unagreed, f);
    let f = values::unless(first, Field::First, f);
    let f = values::unless(last, Field::Last, f);
    let f = values::unless(pn, Field::Pn, f);
    values::unless(kind, Field::Kind, f)
}

// The place holds a letter by form. What stands after its records is not read.
pub fn is_by_form(place: &[u64], j: u32) -> bool
    requires { PlaceSized j place.now }
    ensures { result ≡ place_form j place.now }
{
    let f = head_fault(place, j);
    match f {
        None => values::all_proper(records(place)),
        Some(_) => false,
    }
}

// Words as the numbers, records, counts and sets that they stand for: what rows and letters share.
#![tactic(auto)]

ghost use Rattle.std.specs.Prelude.{◌≡◌, cond, ◌≤◌, ◌<◌, ◌^◌};
ghost use Rattle.rules.specs.Every.{each};
ghost use Rattle.rules.specs.Sizes.{proper, record_form};
ghost use Rattle.rules.specs.Sets.{set_form};
ghost use Rattle.rules.specs.Box.{held_at};
ghost use Rattle.rules.specs.Form.{first_form};
ghost use Rattle.values.specs.Counts.{count_of, agreed_count, full_count, held_count};

// The fields of a box and of a mail.
#[derive(Clone, Copy)]
pub enum Field {
    Flag,
    State,
    Phase,
    Kind,
    Pn,
    Last,
    First,
    StoredPn,
    StoredNumber,
    BestPn,
    BestNumber,
    Answered,
    Accepts,
    Heard,
    Best,
    Waiting,
    Agreeing,
    Peer(u32),
    Unagreed,
    Count,
}

// The largest proposal number.
pub const MOST_PN: u64 = 999999999;

// The largest load number.
pub const MOST_NUMBER: u64 = 1000000000;

// The first field that is not by form: one that is leaves what is said of those behind it.
pub fn unless(formed: bool, field: Field, rest: Option<Field>) -> Option<Field>
    ensures { result ≡ cond formed rest (Some field) }
{
    if formed { rest } else { Some(field) }
}

// A word that holds a 32-bit number: the caller knows it, and a try_from would ask once more.
pub fn number(x: u64) -> u32
    requires { x < 2 ^ 32 }
    ensures { result ≡ x }
{
    x as u32
}

// Both frame numbers are at least 1; a word holds none above 4,294,967,295. The two divisions are
// the
// paper's own words for a record's frames: a name for each would be no plainer.
pub fn is_proper(x: u64) -> bool
    ensures { result ≡ proper x }
{
    (1 <= x / 4294967296) & (1 <= x % 4294967296)
}

pub fn all_proper(records: &[u64]) -> bool
    ensures { result ≡ each proper records.now }
{
    records.iter().all(|x| is_proper(*x))
}

pub fn is_record(x: u64) -> bool
    ensures { result ≡ record_form x }
{
    let proper = is_proper(x);
    (x == 0) | proper
}

pub fn held_at(records: &[u64], l: u32) -> Option<u64>
    ensures { result ≡ held_at records.now l }
{
    records.get(l as usize).copied()
}

pub fn is_first(first: u64, last: u64) -> bool
    ensures { result ≡ first_form first last }
{
    (1 <= first) & ((first == 1) | (first <= last))
}

// The records of first to last, and `more` behind them, at most j.
fn is_many(j: u32, first: u64, last: u64, more: u64, count: u64) -> bool
    requires { more ≤ 1 }
    ensures { result ≡ count_of j first last more count }
{
    let most = j as u64;
    if MOST_NUMBER < last {
        return false;
    }
    if last + 1 < first {
        return false;
    }
    (count <= most) & (count == last + 1 - first + more)
}

// Those of first to last ..
pub fn is_agreed(j: u32, first: u64, last: u64, count: u64) -> bool
    ensures { result ≡ agreed_count j first last count }
{
    is_many(j, first, last, 0, count)
}

// .. and of last+1, which is a load number too.
pub fn is_full(j: u32, first: u64, last: u64, count: u64) -> bool
    ensures { result ≡ full_count j first last count }
{
    let many = is_many(j, first, last, 1, count);
    many & (last < MOST_NUMBER)
}

// Records first to last and perhaps last+1, at most j.
pub fn is_count(j: u32, first: u64, last: u64, count: u64) -> bool
    ensures { result ≡ held_count j first last count }
{
    let agreed = is_agreed(j, first, last, count);
    let full = is_full(j, first, last, count);
    agreed | full
}

// A set of boxes 1 to n only: no binary digit is left after the n lowest.
pub fn is_set(n: u32, w: u64) -> bool
    ensures { result ≡ set_form n w }
{
    w.checked_shr(n).unwrap_or(0) == 0
}

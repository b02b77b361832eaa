// One mail in lent words: the words of its fields, and then room for its records.
#![tactic(auto)]

ghost use Rattle.std.specs.Prelude.{◌≡◌, get_or};
ghost use Rattle.rules.specs.Box.{next_of};
ghost use Rattle.letter.specs.Place.{kind_of, mail_at, letter_at};
ghost use Rattle.letter.specs.Lent.{
  PlaceReadable,
  Numbered,
  agreed_of,
  enclosed_from,
  enclosed_count,
  Encloses,
  Enclosed,
};

use rules::model::{Kind, Mail};
use rules::parts;

mod form;

pub use form::{head_fault, is_by_form};

// Where each field stands; the records stand behind the head.
pub const KIND: usize = 0;

pub const PN: usize = 1;

pub const LAST: usize = 2;

pub const FIRST: usize = 3;

pub const UNAGREED: usize = 4;

pub const COUNT: usize = 5;

pub const HEAD: usize = 6;

// No From: the type is another crate's, and no impl may stand here. By form no other word occurs.
pub fn kind_of(x: u64) -> Kind
    ensures { result ≡ kind_of x }
{
    match x {
        0 => Kind::Collect,
        1 => Kind::Collect,
        2 => Kind::Last,
        3 => Kind::Begin,
        4 => Kind::Accept,
        5 => Kind::Commit,
        6 => Kind::Lease,
        _ => Kind::LeaseAck,
    }
}

pub fn load(place: &[u64]) -> Mail
    requires { PlaceReadable place.now }
    ensures { result ≡ mail_at place.now }
{
    let kind = kind_of(place[KIND]);
    let pn = values::number(place[PN]);
    let last = values::number(place[LAST]);
    let first = values::number(place[FIRST]);
    let unagreed = values::number(place[UNAGREED]);
    Mail {
        kind: kind,
        pn: pn,
        last: last,
        first: first,
        unagreed: unagreed,
    }
}

// The records that it holds.
// Not one function with a box's: where the count stands is the place's own, and what is asked.
pub fn records(place: &[u64]) -> &[u64]
    requires { PlaceReadable place.now }
    ensures { result.now ≡ (letter_at place.now).records }
{
    let count = words::size(place[COUNT]);
    let end = HEAD + count;
    &place[HEAD..end]
}

// Its first record; 0: it has none.
pub fn first_record(place: &[u64]) -> u64
    requires { PlaceReadable place.now }
    ensures { result ≡ get_or (letter_at place.now).records 0 0 }
{
    let held = records(place);
    if 0 < held.len() {
        return held[0];
    }
    0
}

// How many of a mail's records are agreed.
fn agreed(m: Mail) -> u32
    requires { Numbered m }
    ensures { result ≡ agreed_of m }
{
    parts::span(m.first, m.last)
}

// What it holds at its last+1.
pub fn after_last(place: &[u64]) -> Option<u64>
    requires place_readable { PlaceReadable place.now }
    requires numbered { Numbered (mail_at place.now) }
    ensures { result ≡ next_of (letter_at place.now) }
{
    let m = load(place);
    values::held_at(records(place), agreed(m))
}

// Where the records that go with a mail begin, a of them agreed ..
fn enclosed_from(k: Kind, a: u32) -> usize
    ensures { result ≡ enclosed_from k a }
{
    match k {
        Kind::Collect => 0,
        Kind::Last => 0,
        Kind::Begin => a as usize,
        Kind::Accept => 0,
        Kind::Commit => 0,
        Kind::Lease => 0,
        Kind::LeaseAck => 0,
    }
}

// .. and how many of those held they are.
fn enclosed_count(k: Kind, a: u32, held: usize) -> usize
    ensures { result ≡ enclosed_count k a held }
{
    match k {
        Kind::Collect => 0,
        Kind::Last => held,
        Kind::Begin => 1,
        Kind::Accept => 0,
        Kind::Commit => a as usize,
        Kind::Lease => 0,
        Kind::LeaseAck => 0,
    }
}

// The place holds the mail with those of the records that go with it.
pub fn enclose(place: &mut [u64], m: Mail, records: &[u64])
    requires { Encloses place.old m records.now }
    ensures { Enclosed place.old m records.now place.new }
{
    let kind = m.kind;
    let a = agreed(m);
    let from = enclosed_from(kind, a);
    let count = enclosed_count(kind, a, records.len());
    let fields = [
        u64::from(u32::from(kind)),
        u64::from(m.pn),
        u64::from(m.last),
        u64::from(m.first),
        u64::from(m.unagreed),
        words::word(count),
    ];
    place[0..HEAD].copy_from_slice(&fields);
    words::copy_part(records, from, place, HEAD, count);
}

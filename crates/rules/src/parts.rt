// What several rules share: others, what outlives a stop, records that are taken, the best that is
// cleared.
ghost use Rattle.std.specs.Prelude.{◌≡◌, ◌+◌, ◌-◌, ◌≤◌};
ghost use Rattle.rules.specs.Sizes.{most_loads, most_number};
ghost use Rattle.rules.specs.Bounds.{BoundedKept};
ghost use Rattle.rules.specs.Fields.{promised, lasting, keeping, storing};
ghost use Rattle.rules.specs.Parts.{others, under_of, span, higher, dropped};
ghost use Rattle.rules.specs.Parts.{took_kept, took_book, room_next};
ghost use Rattle.rules.specs.Parts.{none, cleared};

use crate::model::{Best, Book, Kept, Setting, Stored};
use crate::{ranges, sets, turns};

impl Setting {
    pub(crate) fn others(self) -> u32
        ensures { result ≡ others self }
    {
        sets::without_box(self.present, self.me)
    }
}

// Its own, or theirs where that is higher.
// No `max`: the clause has the paper's word, which many proofs cite.
pub(crate) fn higher(own: u32, theirs: u32) -> u32
    ensures { (result ≡ higher own theirs) × (own ≤ result) }
{
    if own < theirs { theirs } else { own }
}

// How many numbers there are from first to last.
pub fn span(first: u32, last: u32) -> u32
    requires { (last ≤ most_number) × (first ≤ last + 1) }
    ensures { result ≡ span first last }
{
    last + 1 - first
}

// The number after last has room among j records and in the range.
pub(crate) fn room_next(j: u32, first: u32, last: u32) -> bool
    requires { (j ≤ most_loads) × (first ≤ most_number + 1) × (last ≤ most_number) }
    ensures { result ≡ room_next j first last }
{
    (last + 2 <= j + first) & (last < ranges::MOST_NUMBER)
}

// A method for each field that a rule sets: each has a definition of the paper's name.
impl Kept {
    pub(crate) fn promise(self, q: u32) -> Kept
        ensures { result ≡ promised q self }
    {
        Kept { pn: q, ..self }
    }

    pub(crate) fn reach(self, l: u32) -> Kept
        ensures { result ≡ lasting l self }
    {
        Kept { last: l, ..self }
    }

    pub(crate) fn keep(self, f: u32) -> Kept
        ensures { result ≡ keeping f self }
    {
        Kept { first: f, ..self }
    }

    pub(crate) fn store(self, q: u32, l: u32) -> Kept
        ensures { result ≡ storing q l self }
    {
        Kept {
            stored: Stored { pn: q, number: l },
            ..self
        }
    }

    // What is kept of a sender that keeps from f to l.
    pub(crate) fn take(self, f: u32, l: u32) -> Kept
        ensures { result ≡ took_kept f l self }
    {
        let first = higher(self.first, f);
        let last = higher(self.last, l);
        self.reach(last).keep(first)
    }

    // How many records leave where first is raised to f.
    pub(crate) fn dropped(self, f: u32) -> u32
        ensures { result ≡ dropped f self }
    {
        let own = self.first;
        higher(own, f) - own
    }

    // What becomes of the book where the sender keeps from f to l.
    pub(crate) fn take_book(self, f: u32, l: u32) -> Book
        requires kept { BoundedKept self }
        requires l_le_most_number { (l ≤ most_number) × (f ≤ l + 1) }
        ensures { result ≡ took_book f l self }
    {
        let last = self.last;
        let whole = span(f, l);
        let gone = self.dropped(f);
        let agreed = span(self.first, last);
        if last + 1 < f {
            return Book::Take(0, 0, 0, whole);
        }
        if last < l {
            return Book::Take(gone, agreed, span(f, last), whole);
        }
        Book::Drop(gone)
    }

    pub(crate) fn under(self) -> u32
        requires { BoundedKept self }
        ensures { result ≡ under_of self }
    {
        turns::pick(self.stored.number == self.last + 1, self.stored.pn, 0)
    }
}

impl Best {
    pub(crate) fn none() -> Best
        ensures { result ≡ none }
    {
        Best {
            pn: 0,
            number: 0,
            value: 0,
        }
    }

    pub(crate) fn clear(self, last: u32) -> Best
        ensures { result ≡ cleared last self }
    {
        turns::pick(self.number <= last, Best::none(), self)
    }
}

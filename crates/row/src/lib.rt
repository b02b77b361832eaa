// One box in lent words: the words of its fields, room for its records, and their index.
#![tactic(auto)]

ghost use Rattle.std.specs.Prelude.{◌≡◌, ◌++◌, ◌+◌, ◌-◌, ◌≤◌, ◌<◌, length, get_or, drop, set};
ghost use Rattle.words.specs.Rows.{part, splice};
ghost use Rattle.rules.specs.Sizes.{most_boxes, most_loads};
ghost use Rattle.rules.specs.Box.{own, mail, turn_of};
ghost use Rattle.rules.specs.Site.{fresh_head};
ghost use Rattle.rules.specs.Own.{elected_box};
ghost use Rattle.letter.specs.Place.{letter_at, head_words as letter_head};
ghost use Rattle.row.specs.Row.{
  state_of,
  phase_of,
  peer_of,
  head_of,
  box_of,
  head_words,
  count_at,
  row_width,
  words_of,
};
ghost use Rattle.row.specs.Lent.{
  RowReadable,
  RowByForm,
  RowHolds,
  FreshRow,
  PlaceByForm,
  records_of,
  count_after,
  CountFits,
  moved,
  Writes,
  Wrote,
  Plays,
  Played,
};

use rules::model::{Act, Best, Book, BoxState, Kept, Phase, Setting, State, Stored, Turn};
use rules::parts;

mod agreed;
mod form;
mod indexed;

pub use agreed::is_agreed;
pub use form::{head_fault, is_by_form};
pub use indexed::{build, find, row_width};

// Where each field stands, in the image's order; the records stand behind the head.
pub const FLAG: usize = 0;

pub const STATE: usize = 1;

pub const PHASE: usize = 2;

pub const PN: usize = 3;

pub const LAST: usize = 4;

pub const FIRST: usize = 5;

pub const STORED_PN: usize = 6;

pub const STORED_NUMBER: usize = 7;

pub const BEST_PN: usize = 8;

pub const BEST_NUMBER: usize = 9;

pub const ANSWERED: usize = 10;

pub const ACCEPTS: usize = 11;

pub const HEARD: usize = 12;

pub const BEST: usize = 13;

pub const WAITING: usize = 14;

pub const AGREEING: usize = 15;

// Peer k stands k places behind this.
pub const BEFORE_PEERS: usize = 15;

pub const PEERS: usize = 16;

pub const COUNT: usize = 21;

pub const HEAD: usize = 22;

// The last of a peer that is not known.
pub const UNKNOWN: u64 = 4294967295;

// No From: the type is another crate's, and no impl may stand here. By form no other word occurs.
pub fn state_of(x: u64) -> State
    ensures { result ≡ state_of x }
{
    match x {
        0 => State::Recovering,
        1 => State::Active,
        2 => State::Updating,
        3 => State::UpdatingPrevious,
        _ => State::Refresh,
    }
}

// No From, as above.
pub fn phase_of(x: u64) -> Phase
    ensures { result ≡ phase_of x }
{
    match x {
        0 => Phase::Election,
        1 => Phase::SendCollect,
        2 => Phase::Collect,
        3 => Phase::Lease,
        4 => Phase::Begin,
        5 => Phase::Commit,
        _ => Phase::LeaseDone,
    }
}

// The records that it holds.
// Not one function with a mail's: where the count stands is the row's own, and what is asked.
pub fn records(row: &[u64]) -> &[u64]
    requires { head_words + get_or row.now count_at 0 ≤ length row.now }
    ensures { result.now ≡ records_of row.now }
{
    let count = words::size(row[COUNT]);
    let end = HEAD + count;
    &row[HEAD..end]
}

// The last of peer k; unknown above n.
fn peer_of(row: &[u64], n: u32, k: u32) -> u32
    requires row_readable { RowReadable n row.now }
    requires le_k { (1 ≤ k) × (k ≤ most_boxes) }
    ensures { result ≡ peer_of n row.now k }
{
    if n < k {
        return 4294967295;
    }
    let at = BEFORE_PEERS + k as usize;
    values::number(row[at])
}

pub fn load(row: &[u64], n: u32) -> BoxState
    requires { RowReadable n row.now }
    ensures { result ≡ head_of n row.now }
{
    let leads = row[FLAG] == 1;
    let answered = values::number(row[ANSWERED]);
    let accepts = values::number(row[ACCEPTS]);
    let heard = values::number(row[HEARD]);
    let waiting = row[WAITING];
    let agreeing = row[AGREEING];
    let state = state_of(row[STATE]);
    let phase = phase_of(row[PHASE]);
    let stored = Stored {
        pn: values::number(row[STORED_PN]),
        number: values::number(row[STORED_NUMBER]),
    };
    let kept = Kept {
        pn: values::number(row[PN]),
        last: values::number(row[LAST]),
        first: values::number(row[FIRST]),
        stored: stored,
    };
    let best = Best {
        pn: values::number(row[BEST_PN]),
        number: values::number(row[BEST_NUMBER]),
        value: row[BEST],
    };
    // Last: behind these calls the row's length lies too far back for a proof to find.
    let peers = [
        peer_of(row, n, 1),
        peer_of(row, n, 2),
        peer_of(row, n, 3),
        peer_of(row, n, 4),
        peer_of(row, n, 5),
    ];
    BoxState {
        leads: leads,
        state: state,
        phase: phase,
        kept: kept,
        best: best,
        answered: answered,
        accepts: accepts,
        heard: heard,
        waiting: waiting,
        agreeing: agreeing,
        peers: peers,
    }
}

// The fields of a box that holds so many records; its records stay.
pub fn store(row: &mut [u64], h: BoxState, held: u32)
    requires { head_words ≤ length row.old }
    ensures { row.new ≡ words_of h held ++ drop head_words row.old }
{
    let state = h.state;
    let phase = h.phase;
    let peers = h.peers;
    let fields = [
        u64::from(h.leads),
        u64::from(u32::from(state)),
        u64::from(u32::from(phase)),
        u64::from(h.kept.pn),
        u64::from(h.kept.last),
        u64::from(h.kept.first),
        u64::from(h.kept.stored.pn),
        u64::from(h.kept.stored.number),
        u64::from(h.best.pn),
        u64::from(h.best.number),
        u64::from(h.answered),
        u64::from(h.accepts),
        u64::from(h.heard),
        h.best.value,
        h.waiting,
        h.agreeing,
        u64::from(peers[0]),
        u64::from(peers[1]),
        u64::from(peers[2]),
        u64::from(peers[3]),
        u64::from(peers[4]),
        u64::from(held),
    ];
    row[0..HEAD].copy_from_slice(&fields);
}

fn fresh_head() -> BoxState
    ensures { result ≡ fresh_head }
{
    BoxState {
        leads: false,
        state: State::Recovering,
        phase: Phase::Election,
        kept: Kept {
            pn: 0,
            last: 0,
            first: 1,
            stored: Stored { pn: 0, number: 0 },
        },
        best: Best {
            pn: 0,
            number: 0,
            value: 0,
        },
        answered: 0,
        accepts: 0,
        heard: 0,
        waiting: 0,
        agreeing: 0,
        peers: [4294967295; 5],
    }
}

// A fresh box, whatever the words were.
pub fn fresh(row: &mut [u64], j: u32)
    requires { (length row.old ≡ row_width j) × (j ≤ most_loads) }
    ensures { FreshRow j row.old row.new }
{
    store(row, fresh_head(), 0);
    indexed::clear(row, j);
}

// The row holds the box when c is elected.
pub fn elect(row: &mut [u64], s: Setting, c: u32)
    requires { RowByForm s row.old }
    ensures { RowHolds s.n s.j (elected_box s c (box_of s.n row.old))
        row.old row.new }
{
    let held = values::number(row[COUNT]);
    let head = load(row, s.n);
    let next = head.elected(s, c);
    store(row, next, held);
}

// What a step of its own makes of the box.
pub fn act_turn(row: &[u64], s: Setting, a: Act) -> Turn
    requires { RowByForm s row.now }
    ensures { result ≡ turn_of s (box_of s.n row.now) (own a) }
{
    let head = load(row, s.n);
    let agreed = parts::span(head.kept.first, head.kept.last);
    let mine = values::held_at(records(row), agreed);
    head.any_act(s, a, mine)
}

// What a mail from a sender makes of the box.
pub fn mail_turn(row: &[u64], place: &[u64], s: Setting, sender: u32) -> Turn
    requires row_by_form { RowByForm s row.now }
    requires place_by_form { PlaceByForm s place.now }
    ensures { result ≡ turn_of s (box_of s.n row.now)
        (mail sender (letter_at place.now)) }
{
    let head = load(row, s.n);
    let agreed = parts::span(head.kept.first, head.kept.last);
    let mine = values::held_at(records(row), agreed);
    let m = letter::load(place);
    let one = letter::first_record(place);
    let next = letter::after_last(place);
    head.any_mail(s, sender, m, one, next, mine)
}

// How many records are held after a turn.
fn count_after(b: Book, count: u32) -> u32
    requires { CountFits b count }
    ensures { result ≡ count_after b count }
{
    match b {
        Book::Keep => count,
        Book::Drop(d) => count - d,
        Book::Put(d, a, _) => a - d + 1,
        Book::Take(d, a, b, e) => a - d + (e - b),
    }
}

// Of the first a records the first d leave, and the others move down, once.
fn move_down(row: &mut [u64], d: u32, a: u32)
    requires { (d ≤ a) × (head_words + a ≤ length row.old) }
    ensures { row.new ≡ moved d a row.old }
{
    if d == 0 {
        return;
    }
    let from = HEAD + d as usize;
    let n = (a - d) as usize;
    words::copy_within(row, from, HEAD, n);
}

// The record r stands behind those of the first a that stay, all but d.
fn put(row: &mut [u64], d: u32, a: u32, r: u64)
    requires { (d ≤ a) × (head_words + a ≤ length row.old)
        × (head_words + (a - d) < length row.old) }
    ensures { row.new ≡ set (moved d a row.old) (head_words + (a - d)) r }
{
    let at = HEAD + (a - d) as usize;
    move_down(row, d, a);
    row[at] = r;
}

// The mail's records but b of its first e stand behind those of the first a that stay, all but d.
fn take(row: &mut [u64], place: &[u64], d: u32, a: u32, b: u32, e: u32)
    requires d_le_a { (d ≤ a) × (head_words + a ≤ length row.old) × (b ≤ e) }
    requires b_in_bounds { head_words + (a - d) + (e - b) ≤ length row.old }
    requires e_in_bounds { letter_head + e ≤ length place.now }
    ensures { row.new ≡ splice (moved d a row.old) (head_words + (a - d)) (e - b)
        (part place.now (letter_head + b) (e - b)) }
{
    let from = letter::HEAD + b as usize;
    let to = HEAD + (a - d) as usize;
    let n = (e - b) as usize;
    move_down(row, d, a);
    words::copy_part(place, from, row, to, n);
}

// What becomes of the records, of which there are so many.
// A match and no closure: the rules say it as a value, which the clause reads.
fn write(row: &mut [u64], place: &[u64], count: u32, b: Book)
    requires writes { Writes row.old place.now b }
    requires count_value { count ≡ get_or row.old count_at 0 }
    ensures { Wrote row.old place.now b row.new }
{
    match b {
        Book::Keep => {}
        Book::Drop(d) => move_down(row, d, count),
        Book::Put(d, a, r) => put(row, d, a, r),
        Book::Take(d, a, b, e) => take(row, place, d, a, b, e),
    }
}

// The row holds the box after its turn; the place holds the mail that it took.
pub fn play(row: &mut [u64], place: &[u64], n: u32, j: u32, t: Turn)
    requires { Plays n j row.old place.now t }
    ensures { Played n j row.old place.now t row.new }
{
    let book = t.book;
    let next = t.next;
    let count = values::number(row[COUNT]);
    let held = count_after(book, count);
    let indexed = indexed::release(row, j, book, count, next.kept.first, next.kept.last);
    write(row, place, count, book);
    store(row, next, held);
    indexed::enter_from(row, j, indexed);
}

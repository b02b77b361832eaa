// The index of the agreed records in a row: some leave it, others come to it, one is found by it.
ghost use Rattle.std.specs.Prelude.{◌≡◌, ◌+◌, ◌≤◌, ◌<◌, length, get_or, drop, take};
ghost use Rattle.words.specs.Rows.{splice};
ghost use Rattle.rules.specs.Sizes.{most_loads};
ghost use Rattle.rules.specs.Parts.{span};
ghost use Rattle.index.specs.Index.{slot_of, index_form, first_with};
ghost use Rattle.index.specs.Lent.{Indexed, Appends, appended, gone};
ghost use Rattle.row.specs.Row.{
  head_words,
  first_at,
  last_at,
  count_at,
  index_at,
  index_width,
  row_width,
  agreed_of,
  index_of,
};
ghost use Rattle.row.specs.Lent.{
  RowBooked,
  Reindexed,
  Cleared,
  Released,
  RowByForm,
  leaving,
  known,
  agreed_stay,
};

use crate::{COUNT, FIRST, HEAD, LAST};
use rules::model::{Book, Setting};

// How many words a row has.
pub fn row_width(j: u32) -> usize
    ensures { result ≡ row_width j }
{
    HEAD + j as usize + (index::NEXTS + j as usize)
}

// How many agreed records it keeps.
fn agreed_count(row: &[u64], j: u32) -> usize
    requires { RowBooked j row.now }
    ensures { result ≡ span (get_or row.now first_at 0) (get_or row.now last_at 0) }
{
    words::size(row[LAST] + 1 - row[FIRST])
}

// The agreed records.
fn agreed_records(row: &[u64], j: u32) -> &[u64]
    requires { RowBooked j row.now }
    ensures { result.now ≡ agreed_of row.now }
{
    let a = agreed_count(row, j);
    &row[HEAD..HEAD + a]
}

// The words of the index.
fn index_words(row: &[u64], j: u32) -> &[u64]
    requires { RowBooked j row.now }
    ensures { result.now ≡ index_of j row.now }
{
    let start = HEAD + j as usize;
    &row[start..start + (index::NEXTS + j as usize)]
}

// The first record of a slot, at place i, leaves the index.
fn leave_one(row: &mut [u64], j: u32, i: usize)
    requires { (length row.old ≡ row_width j) × (j ≤ most_loads) × (i < j) }
    ensures { row.new ≡ splice row.old (index_at j) (index_width j)
        (gone (slot_of (get_or row.old (head_words + i) 0)) i
        (index_of j row.old)) }
{
    let slot = index::slot_of(row[HEAD + i]);
    let start = HEAD + j as usize;
    index::leave(
        &mut row[start..start + (index::NEXTS + j as usize)],
        slot,
        i,
    );
}

// The first d of the agreed records leave the index; nothing has moved yet.
fn leave_first(row: &mut [u64], j: u32, d: usize)
    requires row_booked { RowBooked j row.old }
    requires indexed { Indexed 0 (get_or row.old first_at 0) (agreed_of row.old)
        (index_of j row.old) }
    requires d_in_bounds { d ≤ length (agreed_of row.old) }
    ensures { Reindexed j d (get_or row.old first_at 0 + d)
        (drop d (agreed_of row.old)) row.old row.new }
{
    for i in 0..d {
        leave_one(row, j, i);
    }
}

// .. and the next words of the others move down.
fn drop_first(row: &mut [u64], j: u32, d: usize, a: usize)
    requires row_booked { RowBooked j row.old }
    requires indexed { Indexed 0 (get_or row.old first_at 0) (agreed_of row.old)
        (index_of j row.old) }
    requires d_le_a { (d ≤ a) × (a ≡ length (agreed_of row.old)) }
    ensures { Reindexed j 0 (get_or row.old first_at 0 + d)
        (drop d (agreed_of row.old)) row.old row.new }
{
    if d == 0 {
        return;
    }
    leave_first(row, j, d);
    let start = HEAD + j as usize;
    index::move_down(
        &mut row[start..start + (index::NEXTS + j as usize)],
        d,
        a - d,
    );
}

// No record is in the index, whatever its words were.
pub(crate) fn clear(row: &mut [u64], j: u32)
    requires { (length row.old ≡ row_width j) × (j ≤ most_loads) }
    ensures { Cleared j row.old row.new }
{
    let start = HEAD + j as usize;
    index::clear(&mut row[start..start + (index::NEXTS + j as usize)]);
}

// The record at place i, whose number is k, comes to the index behind all others.
fn enter_one(row: &mut [u64], j: u32, k: u32, i: usize)
    requires row_len { (length row.old ≡ row_width j) × (j ≤ most_loads) × (i < j) }
    requires appends { Appends (slot_of (get_or row.old (head_words + i) 0)) k i
        (index_of j row.old) }
    ensures { row.new ≡ splice row.old (index_at j) (index_width j)
        (appended (slot_of (get_or row.old (head_words + i) 0)) k i
        (index_of j row.old)) }
{
    let slot = index::slot_of(row[HEAD + i]);
    let start = HEAD + j as usize;
    index::append(
        &mut row[start..start + (index::NEXTS + j as usize)],
        slot,
        k,
        i,
    );
}

// The agreed records from place m on come to the index of those before.
pub(crate) fn enter_from(row: &mut [u64], j: u32, m: usize)
    requires row_booked { RowBooked j row.old }
    requires indexed { Indexed 0 (get_or row.old first_at 0) (take m (agreed_of row.old))
        (index_of j row.old) }
    requires m_in_bounds { m ≤ length (agreed_of row.old) }
    ensures { Reindexed j 0 (get_or row.old first_at 0) (agreed_of row.old)
        row.old row.new }
{
    let a = agreed_count(row, j);
    let first = row[FIRST];
    for i in m..a {
        enter_one(row, j, values::number(first + words::word(i)), i);
    }
}

// How many of the first records leave the book.
fn leaving(b: Book) -> u32
    ensures { result ≡ leaving b }
{
    match b {
        Book::Keep => 0,
        Book::Drop(d) => d,
        Book::Put(d, _, _) => d,
        Book::Take(d, _, _, _) => d,
    }
}

// Of how many of the first records, of so many, the book says whether they leave.
fn known(b: Book, count: u32) -> u32
    ensures { result ≡ known b count }
{
    match b {
        Book::Keep => count,
        Book::Drop(_) => count,
        Book::Put(_, a, _) => a,
        Book::Take(_, a, _, _) => a,
    }
}

// The agreed records but those that leave all stay, and keep their numbers.
fn do_stay(row: &[u64], j: u32, b: Book, count: u32, first: u32, last: u32) -> bool
    requires row_booked { RowBooked j row.now }
    requires count_value { count ≡ get_or row.now count_at 0 }
    ensures { result ≡ agreed_stay row.now
        (span (get_or row.now first_at 0) (get_or row.now last_at 0)) b
        first last }
{
    let a = agreed_count(row, j);
    let d = leaving(b);
    let upto = known(b, count);
    let was = row[FIRST];
    let end = row[LAST];
    (was + d as u64 == first as u64)
        & (d as usize <= a)
        & (a <= upto as usize)
        & (end <= last as u64)
}

// The index is that of the agreed records that stay, as many as are said. Where none keeps its
// number, as in a book that is taken whole, all leave at once.
pub(crate) fn release(row: &mut [u64], j: u32, b: Book, count: u32, first: u32, last: u32) -> usize
    requires row_booked { RowBooked j row.old }
    requires indexed { Indexed 0 (get_or row.old first_at 0) (agreed_of row.old)
        (index_of j row.old) }
    requires count_value { (count ≡ get_or row.old count_at 0) × (1 ≤ first) × (first ≤ last + 1) }
    ensures { Released j b first last row.old result row.new }
{
    if do_stay(row, j, b, count, first, last) {
        let d = leaving(b) as usize;
        let a = agreed_count(row, j);
        drop_first(row, j, d, a);
        return a - d;
    }
    clear(row, j);
    0
}

// The index of the agreed records, whatever its words were.
pub fn build(row: &mut [u64], j: u32)
    requires { RowBooked j row.old }
    ensures { Reindexed j 0 (get_or row.old first_at 0) (agreed_of row.old)
        row.old row.new }
{
    clear(row, j);
    enter_from(row, j, 0);
}

// The index is the one of the agreed records, whatever its words are.
pub(crate) fn is_indexed(row: &[u64], j: u32) -> bool
    requires { RowBooked j row.now }
    ensures { result ≡ index_form (get_or row.now first_at 0) (agreed_of row.now)
        (index_of j row.now) }
{
    let first = values::number(row[FIRST]);
    index::is_index(agreed_records(row, j), index_words(row, j), first)
}

// "the smallest kept agreed number with that left frame", 0 where there is none.
pub fn find(row: &[u64], s: Setting, frame: u32) -> u32
    requires { RowByForm s row.now }
    ensures { result ≡ first_with frame (get_or row.now first_at 0) (agreed_of row.now) }
{
    let first = values::number(row[FIRST]);
    index::find(
        agreed_records(row, s.j),
        index_words(row, s.j),
        first,
        frame,
    )
}

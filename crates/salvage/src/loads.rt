// The load list: what readable boxes keep as agreed for a number, and the next number that one of
// them may keep. Word b − 1 of `kept` is 1 where box b is readable.
ghost use Rattle.std.specs.Prelude.{◌≡◌, true, ◌+◌, ◌≤◌, ◌<◌, length};
ghost use Rattle.rules.specs.Sizes.{most_boxes, most_number};
ghost use Rattle.salvage.specs.Table.{sound, boxes_in};
ghost use Rattle.salvage.specs.Loads.{kept_in, kept_by};
ghost use Rattle.salvage.specs.Tally.{
  flagged,
  none_yet,
  added,
  tallied,
  SkipsIn,
  SkipsAll,
};

use crate::table::body;
use found::{number_at, word_at};
use words::size;

// One past the largest load number.
pub const PAST: u64 = 1000000001;

// Of the boxes seen so far: the record that the first of them keeps, how many keep one, and whether
// two differ. No Option for the record: the count, which is told too, says if there is one.
#[derive(Clone, Copy)]
pub struct Tally {
    pub value: u64,
    pub many: u64,
    pub differs: bool,
}

// The record that a box of n keeps as agreed for number k; 0 where it keeps none.
fn kept_in(readable: bool, n: usize, body: &[u8], k: u64) -> u64
    requires { (n ≤ most_boxes) × (k ≤ most_number) }
    ensures { result ≡ kept_in readable n body.now k }
{
    let first = number_at(body, 4 * row::FIRST);
    let last = number_at(body, 4 * row::LAST);
    if !readable {
        return 0;
    }
    if k < first {
        return 0;
    }
    if last < k {
        return 0;
    }
    word_at(body, image::box_head_bytes(n) + 8 * size(k - first), 8)
}

// One box more, which keeps r, or 0.
fn add(t: Tally, r: u64) -> Tally
    requires { t.many < most_boxes }
    ensures value { result ≡ added t r }
    ensures many_bound { result.many ≤ t.many + 1 }
{
    if r == 0 {
        return t;
    }
    if t.many == 0 {
        return Tally {
            value: r,
            many: 1,
            differs: false,
        };
    }
    Tally {
        value: t.value,
        many: t.many + 1,
        differs: t.differs | !(t.value == r),
    }
}

// What the boxes keep for number k.
pub(crate) fn kept_by(image: &[u8], kept: &[u64], n: usize, k: u64) -> Tally
    requires image_value { (sound image.now ≡ true) × (n ≡ boxes_in image.now) }
    requires n_le_most_boxes { (n ≤ most_boxes) × (length kept.now ≡ most_boxes)
        × (k ≤ most_number) }
    ensures value { result ≡ tallied none_yet (kept_by (flagged kept.now) image.now n k) }
    ensures many_le_most_boxes { result.many ≤ most_boxes }
{
    let mut t = Tally {
        value: 0,
        many: 0,
        differs: false,
    };
    for i in 0..n {
        let r = kept_in(kept[i] == 1, n, body(image, (i + 2) as u32), k);
        t = add(t, r);
    }
    t
}

// The first number from k on that a box may keep.
fn next_in(readable: bool, body: &[u8], k: u64) -> u64
    requires { k ≤ most_number + 1 }
    ensures { SkipsIn readable body.now k result }
{
    let first = number_at(body, 4 * row::FIRST);
    let last = number_at(body, 4 * row::LAST);
    if !readable {
        return PAST;
    }
    if last < k {
        return PAST;
    }
    if k < first {
        return first;
    }
    k
}

// The first number from k on that one of the boxes may keep.
pub(crate) fn next_number(image: &[u8], kept: &[u64], n: usize, k: u64) -> u64
    requires image_value { (sound image.now ≡ true) × (n ≡ boxes_in image.now) }
    requires n_le_most_boxes { (n ≤ most_boxes) × (length kept.now ≡ most_boxes)
        × (k ≤ most_number) }
    ensures skips_all { SkipsAll (flagged kept.now) image.now n k result }
    ensures upper_bound { result ≤ most_number + 1 }
{
    let mut m = PAST;
    for i in 0..n {
        let q = next_in(kept[i] == 1, body(image, (i + 2) as u32), k);
        m = m.min(q);
    }
    m
}

// Sets of boxes as words, the epoch's parity, and the new proposal number.
ghost use Rattle.std.specs.Prelude.{◌≡◌, ◌≤◌};
ghost use Rattle.std.specs.Int.Count.{ones};
ghost use Rattle.rules.specs.Sizes.{even, most_boxes, most_pn};
ghost use Rattle.rules.specs.Sets.{bit, joined, without, includes, has};
ghost use Rattle.rules.specs.NewPn.{new_pn};

use crate::turns;

// Box k alone: 0 for a number that is no box's.
// A match and no shift: it is total, and no box has a number above 5.
pub fn bit_of(k: u32) -> u32
    ensures value { result ≡ bit k }
    ensures upper_bound { result ≤ 16 }
{
    match k {
        1 => 1,
        2 => 2,
        3 => 4,
        4 => 8,
        5 => 16,
        _ => 0,
    }
}

pub fn with_box(w: u32, k: u32) -> u32
    ensures { result ≡ joined w k }
{
    w | bit_of(k)
}

pub fn without_box(w: u32, k: u32) -> u32
    ensures { result ≡ without w k }
{
    w & (31 - bit_of(k))
}

pub fn includes_all(w: u32, v: u32) -> bool
    ensures { result ≡ includes w v }
{
    w & v == v
}

// Box k is in the set w.
pub fn has(w: u32, k: u32) -> bool
    requires { k ≤ most_boxes }
    ensures { result ≡ has w k }
{
    if k == 0 {
        return false;
    }
    (w >> (k - 1)) % 2 == 1
}

// How many boxes a set has.
pub fn count(w: u32) -> u32
    ensures { result ≡ ones w }
{
    u32::count_ones(w)
}

pub fn is_even(e: u32) -> bool
    ensures { result ≡ even e }
{
    e % 2 == 0
}

// The ranges keep the new number below 2^32; refusal 6 is the caller's to give.
pub(crate) fn new_pn(old: u32, rank: u32) -> u32
    requires le_most_pn { old ≤ most_pn }
    requires rank_le_most_boxes { rank ≤ most_boxes }
    ensures { result ≡ new_pn old rank }
{
    let hundreds = old / 100;
    let here = hundreds * 100 + rank;
    let next = (hundreds + 1) * 100 + rank;
    turns::pick(old % 100 < rank, here, next)
}

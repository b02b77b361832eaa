// By form: the words are the index of the records. One pass, from the last record to the first,
// with the heads so far; then one over the slots.
ghost use Rattle.std.specs.Prelude.{◌≡◌, ◌+◌, ◌≤◌, ◌<◌, length, replicate};
ghost use Rattle.index.specs.Index.{slots, nexts_at, index_form};
ghost use Rattle.index.specs.Lent.{agrees, Looked, Ended};

use crate::{NEXTS, SLOTS, TAILS};

// A word is the head so far, and where there is none the tail is k.
fn agree(a: u64, head: u64, tail: u64, k: u64) -> bool
    ensures { result ≡ agrees a head tail k }
{
    (a == head) & ((head != 0) | (tail == k))
}

// The words beside the records are right, and the tails of the slots that have a head. The heads
// are found on the way.
fn are_linked(records: &[u64], ix: &[u64], first: u64, heads: &mut [u64; 64]) -> bool
    requires first_bound { (first < 4294967296) × (1 ≤ first) }
    requires records_in_bounds { nexts_at + length records.now ≤ length ix.now }
    requires heads_value { heads.old ≡ replicate slots 0 }
    ensures { Looked first records.now ix.now heads.new result }
{
    for i in (0..records.len()).rev() {
        let slot = crate::slot_of(records[i]);
        let number = first + i as u64;
        if !agree(ix[NEXTS + i], heads[slot], ix[TAILS + slot], number) {
            return false;
        }
        heads[slot] = number;
    }
    true
}

// The words of each slot agree with its head.
fn are_ended(heads: &[u64; 64], ix: &[u64]) -> bool
    requires { nexts_at ≤ length ix.now }
    ensures { Ended heads.now ix.now result }
{
    (0..SLOTS).all(|s| agree(ix[s], heads[s], ix[TAILS + s], 0))
}

// The words are the index of the records, the first of which has number `first`. Words behind it
// are not looked at.
pub fn is_index(records: &[u64], ix: &[u64], first: u32) -> bool
    ensures { result ≡ index_form first records.now ix.now }
{
    if first == 0 {
        return false;
    }
    if ix.len() < NEXTS + records.len() {
        return false;
    }
    let mut heads = [0u64; 64];
    if !are_linked(records, ix, first as u64, &mut heads) {
        return false;
    }
    are_ended(&heads, ix)
}

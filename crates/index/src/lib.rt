// The index of a box's agreed records by the left frame (Q-5), in lent words: 64 heads, 64 tails,
// and beside each record the next number of its slot. Numbers ascend, so a new one is entered
// behind a tail, and the one that leaves is a head.
#![tactic(auto)]

ghost use Rattle.std.specs.Prelude.{◌≡◌, ◌+◌, ◌≤◌, ◌<◌, ◌^◌, length};
ghost use Rattle.index.specs.Index.{slots, nexts_at, slot_of};
ghost use Rattle.index.specs.Lent.{
  Appends,
  cleared,
  link_at,
  appended,
  tail_after,
  gone,
  moved,
};

mod form;
mod walk;

pub use form::is_index;
pub use walk::find;

pub const SLOTS: usize = 64;

pub const TAILS: usize = 64;

pub const NEXTS: usize = 128;

// The slot of a record: its left frame's remainder by 64.
pub fn slot_of(load: u64) -> usize
    ensures { (result ≡ slot_of load) × (result < slots) }
{
    words::size(load / 4294967296 % 64)
}

// No record is in the index.
pub fn clear(ix: &mut [u64])
    requires { nexts_at ≤ length ix.old }
    ensures { ix.new ≡ cleared ix.old }
{
    words::fill(&mut ix[0..128], 0);
}

// The word that is to name number k: the next word beside the tail of its slot, or the head.
fn link_at(slot: usize, k: u32, i: usize, tail: u64) -> usize
    requires i_bound { (nexts_at + i < 2 ^ 63) × (tail ≤ k) }
    requires k_bound { 1 ≤ tail → k ≤ tail + i }
    ensures { result ≡ link_at slot k i tail }
{
    if tail == 0 {
        return slot;
    }
    NEXTS + i - words::size(k as u64 - tail)
}

// Number k, whose next word is i, becomes the last of its slot.
pub fn append(ix: &mut [u64], slot: usize, k: u32, i: usize)
    requires { Appends slot k i ix.old }
    ensures { ix.new ≡ appended slot k i ix.old }
{
    let number = k as u64;
    let at = link_at(slot, k, i, ix[TAILS + slot]);
    ix[at] = number;
    ix[TAILS + slot] = number;
    ix[NEXTS + i] = 0;
}

// The tail of a slot whose head leaves: none where nothing stands behind the head.
fn tail_after(next: u64, tail: u64) -> u64
    ensures { result ≡ tail_after next tail }
{
    if next == 0 {
        return 0;
    }
    tail
}

// The head of a slot, whose next word is i, leaves.
pub fn leave(ix: &mut [u64], slot: usize, i: usize)
    requires { (slot < slots) × (nexts_at + i < length ix.old) }
    ensures { ix.new ≡ gone slot i ix.old }
{
    let next = ix[NEXTS + i];
    let tail = tail_after(next, ix[TAILS + slot]);
    ix[slot] = next;
    ix[TAILS + slot] = tail;
}

// The n next words from d on move to the front.
pub fn move_down(ix: &mut [u64], d: usize, n: usize)
    requires { nexts_at + d + n ≤ length ix.old }
    ensures { ix.new ≡ moved d n ix.old }
{
    words::copy_within(ix, NEXTS + d, NEXTS, n);
}

// How far two ticks are apart, and the nearest right frame.
ghost use Rattle.std.specs.Prelude.{◌≡◌};
ghost use Rattle.desk.specs.Near.{ticks_from, apart, near, before, better, nearest_of};

use crate::sides;

// So many ticks after b it is a.
fn ticks_from(b: u32, a: u32) -> u32
    ensures { result ≡ ticks_from b a }
{
    std::num::wrapping_sub_u32(a, b)
}

// Round the wrap, forward or back, whichever is smaller.
pub(crate) fn apart_of(a: u32, b: u32) -> u32
    ensures { result ≡ apart a b }
{
    let on = ticks_from(b, a);
    let back = ticks_from(a, b);
    if on < back { on } else { back }
}

fn is_near(tick: u32, w: u64) -> bool
    ensures { result ≡ near tick w }
{
    (sides::frame_of(w) != 0) & (apart_of(tick, sides::tick_of(w)) <= 40)
}

fn is_before(tick: u32, w: u64, v: u64) -> bool
    ensures { result ≡ before tick w v }
{
    let a = apart_of(tick, sides::tick_of(w));
    let b = apart_of(tick, sides::tick_of(v));
    (a < b) | ((a == b) & (sides::frame_of(w) < sides::frame_of(v)))
}

// The better of what was found so far, 0 for nothing, and w.
fn better_of(tick: u32, found: u64, w: u64) -> u64
    ensures { result ≡ better tick found w }
{
    if is_near(tick, w) & ((found == 0) | is_before(tick, w, found)) {
        return w;
    }
    found
}

// The word of the waiting frame that is nearest, 0 where none is near enough.
pub(crate) fn nearest_of(row: &[u64], tick: u32) -> u64
    ensures { result ≡ nearest_of tick row.now }
{
    let mut found = 0;
    for w in row {
        found = better_of(tick, found, *w);
    }
    found
}

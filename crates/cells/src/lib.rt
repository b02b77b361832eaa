// Numbers one after another as bytes, each of the same width.
#![tactic(auto)]

ghost use Rattle.std.specs.Prelude.{◌+◌, ◌*◌, ◌≤◌, length};
ghost use Rattle.cells.specs.Cells.{cells, Wrote, Room, Read, WordsAre};

mod groups;
mod headed;
mod steps;

pub use groups::{Group, get_groups, put_groups};
pub use headed::{get_headed, put_headed};
pub use steps::walk;

// The numbers ws, of k bytes each, are written at `at`. The place behind them is answered.
pub fn put_words(out: &mut [u8], at: usize, k: usize, ws: &[u64]) -> usize
    requires { Room (cells k ws.now) out.old at }
    ensures { Wrote (cells k ws.now) out.old at out.new result }
{
    let mut p = at;
    for x in ws {
        le::put_at(out, p, k, *x);
        p += k;
    }
    p
}

// Numbers of k bytes each are read at `at`, as many as dst holds. The place behind them is
// answered.
pub fn get_words(src: &[u8], at: usize, k: usize, dst: &mut [u64]) -> usize
    requires { (at + length dst.old * k ≤ length src.now) × (k ≤ 8) }
    ensures { Read k src.now at dst.new result }
{
    let mut p = at;
    for x in dst.iter_mut() {
        *x = le::get_at(src, p, k);
        p += k;
    }
    p
}

// The numbers ws, of k bytes each, stand at `at`.
pub fn has_words(src: &[u8], at: usize, k: usize, ws: &[u64]) -> bool
    requires { (at + length ws.now * k ≤ length src.now) × (k ≤ 8) }
    ensures { WordsAre k ws.now src.now at result }
{
    let mut p = at;
    for x in ws {
        if le::get_at(src, p, k) != *x {
            return false;
        }
        p += k;
    }
    true
}

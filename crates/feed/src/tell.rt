// The answer to a line, printed from the site's words.
ghost use Rattle.std.specs.Prelude.{List, [], ℕ, ◌+◌, ◌*◌, ◌≤◌, length};
ghost use Rattle.row.specs.Row.{head_words};
ghost use Rattle.memory.specs.Memory.{site_of, general_words};
ghost use Rattle.print.specs.Decimal.{spaced};
ghost use Rattle.print.specs.Text.{Wrote, done_text};
ghost use Rattle.trace.specs.Feeding.{end_text};
ghost use Rattle.trace.specs.Replay.{lasts};
ghost use Rattle.feed.specs.Rows.{lasts_at};
ghost use Rattle.feed.specs.State.{course_text, feeding_of};
ghost use Rattle.feed.specs.Says.{Rowed, answer_most};

use crate::state::{Feed, Stage};

// Where the last of a row that begins r words behind the general ones stands.
const LAST_OF_ROW: usize = memory::GENERAL + row::LAST;

// The last of each of n boxes, whose rows are w words wide, after a space.
fn put_lasts(out: &mut [u8], at: usize, site: &[u64], n: usize, w: usize) -> usize
    requires { (at + 21 * n ≤ length out.old) × (general_words + n * w ≤ length site.now)
        × (head_words ≤ w) }
    ensures { Wrote (21 * n) out.old out.new at result
        (spaced (lasts_at site.now w n)) }
{
    let mut p = at;
    for i in 0..n {
        let r = words::row_at(i, w, n);
        p = print::put_next(out, p, site[r + LAST_OF_ROW]);
    }
    p
}

// Line number, epoch, and last of boxes 1 to n.
pub(crate) fn put_done(out: &mut [u8], at: usize, k: u64, site: &[u64]) -> usize
    requires { (at + answer_most ≤ length out.old) × Rowed site.now }
    ensures { Wrote answer_most out.old out.new at result
        (done_text k (site_of site.now []).epoch
        (lasts (site_of site.now []))) }
{
    let n = words::size(site[memory::N]);
    let j = words::size(site[memory::J]);
    let w = row::HEAD + j + (index::NEXTS + j);
    let p = print::put_decimal(out, at, k);
    let p = print::put_next(out, p, site[memory::EPOCH]);
    let p = put_lasts(out, p, site, n, w);
    print::put_byte(out, p, 10)
}

// The answer to a line that has begun and that no newline ended.
// A match: the stage is part of the state that is handed back.
pub(crate) fn put_end(f: Feed, out: &mut [u8]) -> usize
    requires { answer_most ≤ length out.old }
    ensures { (xs ls : List ℕ) → Wrote answer_most out.old out.new 0 result
        (end_text course_text (feeding_of f xs ls)) }
{
    let stage = f.stage;
    let k = f.k;
    let held = f.held;
    let n = held.len;
    if n == 0 {
        return 0;
    }
    match stage {
        Stage::First => print::put_refused(out, 0, 1, 11),
        Stage::Going => print::put_refused(out, 0, k, 11),
        Stage::Ended => 0,
    }
}

// The answer to a line is printed, and the run goes on or ends; a line goes on with more bytes.
ghost use Rattle.std.specs.Prelude.{◌≡◌, false, ◌+◌, ◌-◌, ◌≤◌, length};
ghost use Rattle.words.specs.Rows.{part};
ghost use Rattle.rules.specs.Answers.{is_refusal};
ghost use Rattle.rules.specs.Numbers.{answer_number};
ghost use Rattle.trace.specs.Replay.{most_lines};
ghost use Rattle.feed.specs.Says.{Rowed, Finishes, Keeps, answer_most};

use crate::held::Held;
use crate::state::{Feed, Stage, Turn};
use crate::tell::put_done;
use rules::answers::is_refusal;
use rules::model::Answer;

fn code(a: Answer) -> u64
    ensures { result ≡ answer_number a }
{
    let n = rules::numbers::answer_number(a);
    n as u64
}

// The number of the line after line k.
fn next_number(k: u64) -> u64
    ensures { k ≤ most_lines → result ≡ k + 1 }
{
    if k < 4294967296 { k + 1 } else { k }
}

// Prints the answer to line k, and goes on or ends.
pub(crate) fn finish(k: u64, a: Answer, held: Held, site: &[u64], out: &mut [u8], at: usize) -> Turn
    requires { (at + answer_most ≤ length out.old)
        × (is_refusal a ≡ false → Rowed site.now)
        × (is_refusal a ≡ false → k ≤ most_lines) }
    ensures { Finishes k a site.now out.old out.new at result }
{
    if is_refusal(a) {
        let p = print::put_refused(out, at, k, code(a));
        let g = Feed {
            stage: Stage::Ended,
            k,
            held: held.emptied(),
        };
        return Turn { feed: g, at: p };
    }
    let p = put_done(out, at, k, site);
    let g = Feed {
        stage: Stage::Going,
        k: next_number(k),
        held: held.emptied(),
    };
    Turn { feed: g, at: p }
}

// The line that has begun goes on with the bytes of piece from i to e.
pub(crate) fn keep(f: Feed, piece: &[u8], i: usize, e: usize) -> Feed
    requires { (i ≤ e) × (e ≤ length piece.now) }
    ensures { Keeps f (part piece.now i (e - i)) result }
{
    let stage = f.stage;
    let held = f.held;
    Feed {
        stage,
        k: f.k,
        held: held.go_on(piece, i, e),
    }
}

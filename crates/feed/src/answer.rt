// The answer to one line: what the engine says of it, printed, and the run after it.
ghost use Rattle.std.specs.Prelude.{◌≡◌, true, ◌+◌, ◌-◌, ◌≤◌, length};
ghost use Rattle.words.specs.Rows.{part};
ghost use Rattle.memory.specs.Memory.{site_words, links_words, site_of, memory_form};
ghost use Rattle.lines.specs.Read.{read_line};
ghost use Rattle.lines.specs.declared.Line.{Line as Lined};
ghost use Rattle.trace.specs.Feeding.{answered, hold as holds, holding};
ghost use Rattle.trace.specs.Replay.{line_text, opened, judged};
ghost use Rattle.feed.specs.State.{course_next, held_bytes, line_mark, run_of, feeding_of, Lent};
ghost use Rattle.feed.specs.Says.{Answers, Turns, answer_most};

use crate::settle::{finish, keep};
use crate::state::{Feed, MOST_J, MOST_L, Stage, Turn};
use lines::Line;
use rules::model::{Answer, Refusal};

// "site n J L (here J at most 32, L at most 8, else 13)"
fn open_site(site: &mut [u64], links: &mut [u64], n: u32, j: u32, l: u32) -> Answer
    requires { (site_words 5 32 ≤ length site.old) × (links_words 5 32 8 ≤ length links.old) }
    ensures { Answers (opened (Lined.Site n j l)) site.old links.old
        site.new links.new result }
{
    if (MOST_J < j) | (MOST_L < l) {
        return Answer::Refused(Refusal::Sizes);
    }
    site::fresh(site, links, n, j, l)
}

// The first line.
fn answer_first(site: &mut [u64], links: &mut [u64], line: Line) -> Answer
    requires { (site_words 5 32 ≤ length site.old) × (links_words 5 32 8 ≤ length links.old) }
    ensures { Answers (opened line) site.old links.old site.new
        links.new result }
{
    match line {
        Line::Site(n, j, l) => open_site(site, links, n, j, l),
        Line::Call(_) => Answer::Refused(Refusal::Line),
        Line::Holds(_, _, _, _) => Answer::Refused(Refusal::Line),
        Line::Unreadable => Answer::Refused(Refusal::Line),
    }
}

// Line k, after a site line.
fn answer_later(site: &mut [u64], links: &mut [u64], k: u64, line: Line) -> Answer
    requires { memory_form site.old links.old ≡ true }
    ensures { Answers (judged k (site_of site.old links.old) line)
        site.old links.old site.new links.new result }
{
    if 4294967295 < k {
        return Answer::Refused(Refusal::Line);
    }
    match line {
        Line::Site(_, _, _) => Answer::Refused(Refusal::Line),
        Line::Call(call) => site::step_formed(site, links, call),
        Line::Holds(c, i, left, right) => site::holds_formed(site, links, c, i, left, right),
        Line::Unreadable => Answer::Refused(Refusal::Line),
    }
}

// The line that has begun is at its end.
fn answer(f: Feed, site: &mut [u64], links: &mut [u64], out: &mut [u8], at: usize) -> Turn
    requires { (at + answer_most ≤ length out.old) × Lent f.stage site.old links.old }
    ensures { Turns (answered course_next (feeding_of f site.old links.old))
        (line_text (run_of f.stage f.k (site_of site.old links.old))
        (read_line (held_bytes f.held)))
        (line_mark (run_of f.stage f.k (site_of site.old links.old))
        (read_line (held_bytes f.held)))
        site.old links.old site.new links.new
        out.old out.new at result }
{
    let stage = f.stage;
    let held = f.held;
    let k = f.k;
    let l = held.read();
    match stage {
        Stage::First => {
            let a = answer_first(site, links, l);
            finish(1, a, held, site, out, at)
        }
        Stage::Going => {
            let a = answer_later(site, links, k, l);
            finish(k, a, held, site, out, at)
        }
        Stage::Ended => {
            let g = Feed {
                stage: Stage::Ended,
                k,
                held: held.emptied(),
            };
            Turn { feed: g, at }
        }
    }
}

// The line that has begun goes on with the bytes of piece from i to e, and is at its end.
pub(crate) fn answer_line(
    f: Feed,
    piece: &[u8],
    i: usize,
    e: usize,
    site: &mut [u64],
    links: &mut [u64],
    out: &mut [u8],
    at: usize,
) -> Turn
    requires { (i ≤ e) × (e ≤ length piece.now) × (at + answer_most ≤ length out.old)
        × Lent f.stage site.old links.old }
    ensures { Turns
        (answered course_next (holding (feeding_of f site.old links.old)
        (part piece.now i (e - i))))
        (line_text (run_of f.stage f.k (site_of site.old links.old))
        (read_line (holds (held_bytes f.held) (part piece.now i (e - i)))))
        (line_mark (run_of f.stage f.k (site_of site.old links.old))
        (read_line (holds (held_bytes f.held) (part piece.now i (e - i)))))
        site.old links.old site.new links.new
        out.old out.new at result }
{
    let g = keep(f, piece, i, e);
    answer(g, site, links, out, at)
}

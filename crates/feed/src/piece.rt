// A piece of the input: its lines one after another, and the line that it leaves begun.
ghost use Rattle.feed.specs.State.{Lent};
ghost use Rattle.feed.specs.Says.{Feeds};

use crate::answer::answer_line;
use crate::held::line_end;
use crate::settle::keep;
use crate::state::{Fed, Feed, LONGEST_ANSWER};

// Feeds as much of the piece as out has room for: up to its end, or to a newline whose answer might
// not fit. The words suit the state, and do so afterwards: for loops that have seen to it once.
// A while: it ends where out has no room, and its step is a line.
pub fn feed_formed(
    f: Feed,
    piece: &[u8],
    site: &mut [u64],
    links: &mut [u64],
    out: &mut [u8],
) -> Fed
    requires { Lent f.stage site.old links.old }
    ensures { Feeds f piece.now site.old links.old site.new
        links.new out.old out.new result }
{
    let n = piece.len();
    let mut g = f;
    let mut at = 0;
    let mut i = 0;
    let mut e = line_end(piece, 0, n);
    while (e < n) & (LONGEST_ANSWER <= out.len() - at) {
        let t = answer_line(g, piece, i, e, site, links, out, at);
        g = t.feed;
        at = t.at;
        i = e + 1;
        e = line_end(piece, i, n);
    }
    let h = keep(g, piece, i, e);
    Fed {
        feed: h,
        took: e,
        at,
    }
}

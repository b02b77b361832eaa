// What a caller calls. No entry requires anything: what does not suit the state is refused.
ghost use Rattle.std.specs.Prelude.{◌≡◌};
ghost use Rattle.feed.specs.State.{Begins, formed, is_ended};
ghost use Rattle.feed.specs.Entries.{has_room, PieceFed, EndSaid};

use crate::held::Held;
use crate::piece::feed_formed;
use crate::state::{Fed, Feed, LINKS_WORDS, LONGEST_ANSWER, SITE_WORDS, Stage};
use crate::tell::put_end;
use rules::model::Refusal;

// Before the first byte.
pub fn start() -> Feed
    ensures { Begins result }
{
    Feed {
        stage: Stage::First,
        k: 1,
        held: Held::none(),
    }
}

// The run is at its end: whatever more is fed, nothing more is said.
pub fn is_ended(f: Feed) -> bool
    ensures { result ≡ is_ended f.stage }
{
    let stage = f.stage;
    match stage {
        Stage::First => false,
        Stage::Going => false,
        Stage::Ended => true,
    }
}

// The words hold what the run needs of them.
fn is_formed(stage: Stage, site: &[u64], links: &[u64]) -> bool
    ensures { result ≡ formed stage site.now links.now }
{
    match stage {
        Stage::First => true,
        Stage::Going => memory::is_by_form(site, links),
        Stage::Ended => true,
    }
}

fn has_room(site: usize, links: usize, out: usize) -> bool
    ensures { result ≡ has_room site links out }
{
    (SITE_WORDS <= site) & (LINKS_WORDS <= links) & (LONGEST_ANSWER <= out)
}

// Feeds as much of the piece as out has room for; the caller feeds the rest next. Where nothing is
// fed the run stays at f.
pub fn feed_piece(
    f: Feed,
    piece: &[u8],
    site: &mut [u64],
    links: &mut [u64],
    out: &mut [u8],
) -> Result<Fed, Refusal>
    ensures { PieceFed f piece.now site.old links.old
        site.new links.new out.old out.new result }
{
    let stage = f.stage;
    if !is_formed(stage, site, links) {
        return Err(Refusal::Form);
    }
    if !has_room(site.len(), links.len(), out.len()) {
        return Err(Refusal::Buffer);
    }
    Ok(feed_formed(f, piece, site, links, out))
}

// The end of the input: the answer to a line that has begun and that no newline ended, and the
// place past it.
pub fn feed_end(f: Feed, out: &mut [u8]) -> Result<usize, Refusal>
    ensures { EndSaid f out.old out.new result }
{
    if out.len() < LONGEST_ANSWER {
        return Err(Refusal::Buffer);
    }
    Ok(put_end(f, out))
}

// The loop over the input: what is read is fed, and what is said of it is written.
ghost use Rattle.std.specs.Prelude.{◌≤◌, length};
ghost use Rattle.memory.specs.Memory.{site_words, links_words};
ghost use Rattle.feed.specs.State.{Lent};
ghost use Rattle.feed.specs.Says.{answer_most};
ghost use Rattle.replay.specs.Fed.{FedAll, Goes, Over, ReadOn};

use crate::tell::{tell_refused, tell_unended};
use feed::state::Feed;
use streams::{Status, Streams};

// The state after a piece, and whether all that was said of it was written.
#[derive(Clone, Copy)]
struct Sent {
    feed: Feed,
    whole: bool,
}

// The state after a read, and the status where the run is over.
#[derive(Clone, Copy)]
struct Going {
    feed: Feed,
    more: bool,
    status: Status,
}

// Writes what is said. Where that fails, it is told why.
fn write<S: Streams>(rt: &S, said: &[u8]) -> bool {
    if let Err(error) = streams::write_output(rt, said) {
        streams::fail(rt, b"replay: standard output", error);
        return false;
    }
    true
}

// Feeds the whole piece, and writes what is said of it whenever out is full and at the end. It
// stops where that fails. No `for`: it goes on behind what was taken.
fn feed_all<S: Streams>(
    rt: &S,
    f: Feed,
    piece: &[u8],
    site: &mut [u64],
    links: &mut [u64],
    out: &mut [u8],
) -> Sent
    requires { (answer_most ≤ length out.old) × Lent f.stage site.old links.old }
    ensures { FedAll f piece.now site.old links.old site.new
        links.new result }
{
    let mut g = f;
    let mut i = 0;
    while i < piece.len() {
        let t = feed::feed_formed(g, &piece[i..], site, links, out);
        let at = t.at;
        let next = t.feed;
        if !write(rt, &out[..at]) {
            return Sent {
                feed: next,
                whole: false,
            };
        }
        tell_refused(rt, g, next, &piece[i..], &out[..at]);
        g = next;
        i += t.took;
    }
    Sent {
        feed: g,
        whole: true,
    }
}

// What is left to say when the input has ended; gives the status.
fn write_end<S: Streams>(rt: &S, f: Feed, out: &mut [u8]) -> Status {
    let Ok(at) = feed::feed_end(f, out) else {
        return Status::Done;
    };
    if at == 0 {
        return Status::Done;
    }
    if !write(rt, &out[..at]) {
        return Status::Failed;
    }
    tell_unended(rt, f);
    Status::Refused
}

fn over(f: Feed, status: Status) -> Going
    ensures { Over f result }
{
    Going {
        feed: f,
        more: false,
        status,
    }
}

// After a piece: a write that failed, a refused line, or more to read.
fn after(s: Sent) -> Going
    ensures { Goes s result }
{
    let f = s.feed;
    if !s.whole {
        return over(f, Status::Failed);
    }
    Going {
        feed: f,
        more: !feed::is_ended(f),
        status: Status::Refused,
    }
}

// Reads once, and feeds what came.
fn read_some<S: Streams>(
    rt: &S,
    f: Feed,
    site: &mut [u64],
    links: &mut [u64],
    input: &mut [u8],
    out: &mut [u8],
) -> Going
    requires { (answer_most ≤ length out.old) × Lent f.stage site.old links.old }
    ensures { ReadOn f site.old links.old site.new links.new
        input.new result }
{
    match streams::read_input(rt, input) {
        Ok(0) => {
            let status = write_end(rt, f, out);
            over(f, status)
        }
        Ok(n) => {
            let s = feed_all(rt, f, &input[..n], site, links, out);
            after(s)
        }
        Err(error) => {
            streams::fail(rt, b"replay: standard input", error);
            over(f, Status::Failed)
        }
    }
}

// Reads until the input or the run is at its end, and gives the status.
pub(crate) fn run<S: Streams>(
    rt: &S,
    site: &mut [u64],
    links: &mut [u64],
    input: &mut [u8],
    out: &mut [u8],
) -> Status
    requires { (site_words 5 32 ≤ length site.old) × (links_words 5 32 8 ≤ length links.old)
        × (answer_most ≤ length out.old) }
{
    let mut f = feed::start();
    for _ in 0..u64::MAX {
        let g = read_some(rt, f, site, links, input, out);
        f = g.feed;
        if !g.more {
            return g.status;
        }
    }
    Status::Failed
}

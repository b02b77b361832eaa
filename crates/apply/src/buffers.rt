// Two sets of buffers: one for most sites, and one for every site, which is entered only where the
// first does not do.
ghost use Rattle.std.specs.Prelude.{length};
ghost use Rattle.answer.specs.Ample.{Ample};
ghost use Rattle.apply.specs.Room.{JobFits};

use crate::{each, pieces, raw};
use answer::reply::Ask;
use by_lines::Run;
use streams::{Status, Streams, buffer};

// Images of 128 KiB, and the links of most sites.
const IMAGE: usize = 131072;

const LINE: usize = 2 * IMAGE + 66;

const OUT: usize = 2 * IMAGE + 52;

const LINKS: usize = 65536;

// The boxes and the links of the longest image of any site.
const FULL_BOXES: usize = 5 * (4 * row::BEST + 28 + 4 * 5 + 8 * 4096);

const FULL_LINKS: usize = 5 * 4 * (4 + 16 * (24 + 8 * 4096));

// All of it, its table of 60 bytes in front; a byte more, which a longer one fills; and all its
// words.
const LONGEST: usize = 60 + image::GENERAL_BYTES + FULL_BOXES + FULL_LINKS;

const LONGER: usize = LONGEST + 1;

const LONGEST_LINE: usize = 2 * LONGEST + 66;

const LONGEST_OUT: usize = 2 * LONGEST + 52;

const LINK: usize = 2 + 16 * (letter::HEAD + 4096);

const ALL_LINKS: usize = 5 * 4 * LINK;

const ROW: usize = row::HEAD + 4096 + (index::NEXTS + 4096);

const SITE: usize = memory::GENERAL + 5 * ROW;

// What goes on in the larger set: the lines of the input, a call on an image, or a run on one, step
// by step.
#[derive(Clone, Copy)]
pub enum Job {
    Lines(Run),
    Call(Ask),
    Each(u32),
}

fn lines_large<S: Streams>(
    rt: &S,
    run: Run,
    front: &[u8],
    rest: &[u8],
    image: &mut [u8],
    site: &mut [u64],
    links: &mut [u64],
) -> Status
    requires { Ample (length image.old) (length site.old) (length links.old) }
{
    let mut line = buffer::bytes::<LONGEST_LINE>();
    let mut out = buffer::bytes::<LONGEST_OUT>();
    pieces::serve_rest(
        rt, run, front, rest, &mut line, image, LONGEST, site, links, &mut out,
    )
}

// front: what is there of the line, or of the image; text: the rest of the piece, or the call.
// Lines and calls enter here alike: a compiler that merges the frame of a function that is called
// once into its caller's does not merge this one.
// A job is a value: a closure's frame would hold what it takes a second time.
pub(crate) fn serve_large<S: Streams>(rt: &S, job: Job, front: &[u8], text: &[u8]) -> Status
    requires { JobFits job }
{
    let mut image = buffer::bytes::<LONGER>();
    let mut site = [0u64; SITE];
    let mut links = buffer::words::<ALL_LINKS>();
    match job {
        Job::Lines(run) => lines_large(rt, run, front, text, &mut image, &mut site, &mut links),
        Job::Call(l) => raw::call_rest(rt, l, front, text, &mut image, &mut site, &mut links),
        Job::Each(steps) => each::run_each(rt, steps, text, &mut image, &mut site, &mut links),
    }
}

fn lines_small<S: Streams>(
    rt: &S,
    image: &mut [u8],
    site: &mut [u64],
    links: &mut [u64],
) -> Status {
    let mut line = [0u8; LINE];
    let mut out = [0u8; OUT];
    pieces::serve_lines(rt, &mut line, image, site, links, &mut out)
}

pub(crate) fn serve<S: Streams>(rt: &S) -> Status {
    let mut image = [0u8; IMAGE];
    let mut site = [0u64; SITE];
    let mut links = [0u64; LINKS];
    if streams::has_argument(rt, 2, b"call") {
        return raw::serve_call(rt, &mut image, &mut site, &mut links);
    }
    if streams::has_argument(rt, 2, b"each") {
        return each::serve_each(rt);
    }
    lines_small(rt, &mut image, &mut site, &mut links)
}

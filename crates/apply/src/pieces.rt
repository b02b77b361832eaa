// The lines of standard input, in the one set of buffers and in the other.
ghost use Rattle.std.specs.Prelude.{◌≤◌, true, length};
ghost use Rattle.apply.specs.Room.{Room, LineRoom};

use crate::buffers;
use crate::buffers::Job;
use crate::line::Lent;
use by_lines::{Reader, Run};
use streams::{Status, Streams};

const PIECE: usize = 65536;

// Goes on in the larger set, with what was held of a line, and the rest of a piece. Images are of
// at most `most` bytes.
pub(crate) fn serve_rest<S: Streams>(
    rt: &S,
    run: Run,
    front: &[u8],
    rest: &[u8],
    line: &mut [u8],
    image: &mut [u8],
    most: usize,
    site: &mut [u64],
    links: &mut [u64],
    out: &mut [u8],
) -> Status
    requires most_in_bounds { most ≤ length image.old }
    requires line_room { LineRoom true (length line.old) }
    requires room { Room true most (length site.old) (length links.old) (length out.old) }
{
    let mut piece = [0u8; PIECE];
    let reader = Reader {
        rt,
        name: b"apply",
        larger: false,
    };
    let mut lent = Lent {
        last: true,
        image: &mut image[0..most],
        site,
        links,
        out,
    };
    reader
        .read_on(front, rest, &mut piece, run, line, &mut lent)
        .status()
}

// Where a line does not fit the larger set goes on.
pub(crate) fn serve_lines<S: Streams>(
    rt: &S,
    line: &mut [u8],
    image: &mut [u8],
    site: &mut [u64],
    links: &mut [u64],
    out: &mut [u8],
) -> Status {
    let mut piece = [0u8; PIECE];
    let reader = Reader {
        rt,
        name: b"apply",
        larger: true,
    };
    let mut lent = Lent {
        last: false,
        image,
        site,
        links,
        out,
    };
    let run = reader.read(&mut piece, Run::start(), line, &mut lent);
    if !run.is_too_large() {
        return run.status();
    }
    buffers::serve_large(rt, Job::Lines(run), run.front_of(line), run.rest_of(&piece))
}

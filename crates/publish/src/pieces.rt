// An input in a lent buffer, in whole lines: what no newline has ended yet stands at its front.
ghost use Rattle.std.specs.Prelude.{◌≤◌, length};

use std::io::{Read, Result};
use streams::Streams;

// The file that keeps an input which cannot be read twice.
const KEPT: &str = "/proc/self/fd/4";

// What is read the second time; it stands where the trace begins.
pub(crate) fn source<S: Streams>(rt: &S, kept: bool) -> Result<S::File> {
    if kept {
        return streams::open_to_keep(rt, KEPT);
    }
    streams::open_input_again(rt)
}

// The bytes from start to end are kept in the file, where that is to be.
pub(crate) fn keep<S: Streams>(
    rt: &S,
    kept: bool,
    file: &mut S::File,
    piece: &[u8],
    start: usize,
    end: usize,
) -> Result<()> {
    if !kept {
        return Ok(());
    }
    let e = end.min(piece.len());
    streams::send(rt, file, &piece[start.min(e)..e])
}

// One read behind the bytes that are held: how many there are then, or none at the end of the
// input.
pub(crate) fn fill<S: Streams, R: Read>(
    rt: &S,
    from: &mut R,
    piece: &mut [u8],
    held: usize,
) -> Result<Option<usize>> {
    let h = held.min(piece.len());
    match streams::receive(rt, from, &mut piece[h..])? {
        0 => Ok(None),
        n => Ok(Some(h + n)),
    }
}

// Where the last line ends that a newline has ended; 0 where none has.
pub(crate) fn whole(piece: &[u8]) -> usize
    ensures { result ≤ length piece.now }
{
    match piece.iter().rposition(|b| *b == b'\n') {
        Some(i) => i + 1,
        None => 0,
    }
}

// The bytes from start to end go to the front; gives how many.
pub(crate) fn move_down(piece: &mut [u8], start: usize, end: usize) -> usize {
    let e = end.min(piece.len());
    let s = start.min(e);
    piece.copy_within(s..e, 0);
    e - s
}

// How many lines a newline has ended.
pub(crate) fn lines_in(piece: &[u8]) -> u64 {
    piece.iter().filter(|b| **b == b'\n').count() as u64
}

// From line k on, the first being 0.
pub(crate) fn from_line(s: &[u8], k: u64) -> &[u8] {
    let mut rest = s;
    for _ in 0..k {
        let Some(i) = rest.iter().position(|b| *b == b'\n') else {
            return &rest[rest.len()..];
        };
        rest = &rest[i + 1..];
    }
    rest
}

// The first line, without its newline.
pub(crate) fn first_line(s: &[u8]) -> &[u8] {
    let n = s.len();
    let e = scan::find(s, 0, n, 10);
    &s[0..e]
}

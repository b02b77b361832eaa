// The lines of the input, each an image in hex.
use crate::buffers::Job;
use crate::sheet::Page;
use crate::{buffers, hexes};
use by_lines::{Answered, Answers, End, Reader, Run, Stage};
use std::io::{Result, Write};
use streams::{Status, Streams};

const PIECE: usize = 65536;

const TEXT: usize = 65536;

// Work room for an image, and the text so far.
#[derive(Drop)]
struct Room<'i, 'r, 'o, S: Streams> {
    image: &'i mut [u8],
    page: Page<'r, 'o, S>,
}

// A line that fills its buffer is longer than any image, and one that no newline ends is a line
// too.
impl<'i, 'r, 'o, S: Streams> Answers<S> for Room<'i, 'r, 'o, S> {
    fn answer(&mut self, _rt: &S, line: &[u8], number: u64, _end: End) -> Result<Answered> {
        let answered = hexes::answer(&mut self.page, self.image, line, number)?;
        self.page.taken()?;
        Ok(answered)
    }
}

// Sends what is left of the text. Where a write failed before, it is told once more.
fn sent<S: Streams>(mut to: Page<S>, run: Run) -> Run {
    match to.flush() {
        Ok(()) => run,
        Err(error) => {
            streams::fail(to.rt, b"bodies: standard output", error);
            run.with_stage(Stage::Failed)
        }
    }
}

fn reader_of<'r, S: Streams>(rt: &'r S, larger: bool) -> Reader<'r, S> {
    Reader {
        rt,
        name: b"bodies",
        larger,
    }
}

// Goes on in the larger set, with what was held of a line, and the rest of a piece.
pub(crate) fn serve_rest<S: Streams>(
    rt: &S,
    run: Run,
    front: &[u8],
    rest: &[u8],
    line: &mut [u8],
    image: &mut [u8],
) -> Status {
    let mut piece = [0u8; PIECE];
    let mut out = [0u8; TEXT];
    let page = Page::on(rt, &mut out);
    let mut room = Room { image, page };
    let reader = reader_of(rt, false);
    let run = reader.read_on(front, rest, &mut piece, run, line, &mut room);
    sent(room.page, run).status()
}

// Where a line does not fit the larger set goes on.
pub(crate) fn serve<S: Streams>(rt: &S, line: &mut [u8], image: &mut [u8]) -> Status {
    let mut piece = [0u8; PIECE];
    let mut out = [0u8; TEXT];
    let page = Page::on(rt, &mut out);
    let mut room = Room { image, page };
    let reader = reader_of(rt, true);
    let run = reader.read(&mut piece, Run::start(), line, &mut room);
    let run = sent(room.page, run);
    if !run.is_too_large() {
        return run.status();
    }
    buffers::serve_large(rt, Job::Lines(run), run.front_of(line), run.rest_of(&piece))
}

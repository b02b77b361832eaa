// The second reading: each piece goes out under the other names.
use crate::run::{Run, Stage};
use crate::{look, pieces, say, way};
use renamed::entries;
use renamed::text::Refused;
use std::io::{Seek, SeekFrom};
use streams::{Status, Streams, buffer};

// Thrice a piece: a published line is at most 2.2 times as long as ours.
const OUT: usize = 196608;

fn changed<S: Streams>(rt: &S, back: bool, run: Run) -> Run {
    say::input_changed(rt, back);
    run.with_stage(Stage::Failed)
}

// k bytes of out are the lines of the piece, of which there are n.
fn send<S: Streams>(rt: &S, back: bool, out: &[u8], k: usize, n: u64, run: Run) -> Run {
    let k = k.min(out.len());
    if let Err(error) = streams::write_output(rt, &out[0..k]) {
        say::output_failed(rt, back, error);
        return run.with_stage(Stage::Failed);
    }
    run.with_lines(n)
}

// The whole lines of part.
fn write_lines<S: Streams>(rt: &S, back: bool, part: &[u8], out: &mut [u8], run: Run) -> Run {
    let from = way::from(back);
    let to = way::to(back);
    match entries::translate(part, run.judged.lines, from, to, out) {
        Ok(k) => send(rt, back, out, k, pieces::lines_in(part), run),
        Err(Refused::Unreadable | Refused::Unnamed | Refused::Short) => changed(rt, back, run),
    }
}

// The buffer is filled to n.
fn write_filled<S: Streams>(
    rt: &S,
    back: bool,
    piece: &mut [u8],
    n: usize,
    out: &mut [u8],
    run: Run,
) -> Run {
    let n = n.min(piece.len());
    let e = pieces::whole(&piece[0..n]);
    let r = write_lines(rt, back, &piece[0..e], out, run);
    if !r.goes_on() {
        return r;
    }
    if 64 < n - e {
        return changed(rt, back, r);
    }
    r.with_held(pieces::move_down(piece, e, n))
}

// The input has ended; lines: how many the first reading saw.
fn write_end<S: Streams>(rt: &S, back: bool, lines: u64, run: Run) -> Run {
    if (run.held != 0) | (run.judged.lines != lines) {
        return changed(rt, back, run);
    }
    run.with_stage(Stage::Ended)
}

fn write_piece<S: Streams>(
    rt: &S,
    back: bool,
    file: &mut S::File,
    lines: u64,
    piece: &mut [u8],
    out: &mut [u8],
    run: Run,
) -> Run {
    match pieces::fill(rt, file, piece, run.held) {
        Ok(Some(n)) => write_filled(rt, back, piece, n, out, run),
        Ok(None) => write_end(rt, back, lines, run),
        Err(error) => {
            say::input_failed(rt, back, error);
            run.with_stage(Stage::Failed)
        }
    }
}

fn write<S: Streams>(
    rt: &S,
    back: bool,
    file: &mut S::File,
    lines: u64,
    piece: &mut [u8],
    out: &mut [u8],
) -> Status {
    let mut r = Run::start();
    for _ in 0..u64::MAX {
        r = write_piece(rt, back, file, lines, piece, out, r);
        if !r.goes_on() {
            return r.status();
        }
    }
    r.status()
}

// What was kept is read from its front on.
fn again<S: Streams>(
    rt: &S,
    back: bool,
    kept: bool,
    file: &mut S::File,
    lines: u64,
    piece: &mut [u8],
    out: &mut [u8],
) -> Status {
    if kept {
        if let Err(error) = file.seek(SeekFrom::Start(0)) {
            say::input_failed(rt, back, error);
            return Status::Failed;
        }
    }
    write(rt, back, file, lines, piece, out)
}

// What the first reading has come to is not that all is well.
fn refuse<S: Streams>(rt: &S, back: bool, run: Run) -> Status {
    if run.stage == Stage::Refused {
        return say::refused(rt, back, run.judged.unreadable.is_some());
    }
    run.status()
}

fn read_from<S: Streams>(
    rt: &S,
    back: bool,
    kept: bool,
    file: &mut S::File,
    piece: &mut [u8],
    shown: &mut [u8],
    out: &mut [u8],
) -> Status {
    let r = look::look(rt, back, kept, file, piece, shown);
    if r.stage != Stage::Ended {
        return refuse(rt, back, r);
    }
    again(rt, back, kept, file, r.judged.lines, piece, out)
}

// A trace may stand behind what was read before.
fn read_twice<S: Streams>(
    rt: &S,
    back: bool,
    kept: bool,
    piece: &mut [u8],
    shown: &mut [u8],
    out: &mut [u8],
) -> Status {
    match pieces::source(rt, kept) {
        Ok(mut file) => read_from(rt, back, kept, &mut file, piece, shown, out),
        Err(error) => {
            if kept {
                say::keeping_failed(rt, back, error);
            } else {
                say::input_failed(rt, back, error);
            }
            Status::Failed
        }
    }
}

pub(crate) fn serve<S: Streams>(rt: &S, back: bool, kept: bool) -> Status {
    let mut piece = io::large_buffer();
    let mut out = buffer::bytes::<OUT>();
    let mut shown = [0u8; 64];
    read_twice(rt, back, kept, &mut piece, &mut shown, &mut out)
}

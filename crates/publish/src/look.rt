// The first reading: can every line be read, and does each have a name.
use crate::run::{Run, Stage};
use crate::{pieces, say, way};
use renamed::judge;
use std::io::Input;
use streams::Streams;
use wording::put;

// The lines of part; of the first that has no name the text goes into shown.
fn look_at<S: Streams>(rt: &S, back: bool, part: &[u8], shown: &mut [u8], run: Run) -> Run {
    let j = judge::judge(run.judged, part, way::from(back), way::to(back));
    if let Some(line) = j.unreadable {
        let k = line.wrapping_sub(run.judged.lines).wrapping_sub(1);
        say::unreadable(rt, back, line, pieces::from_line(part, k));
        return run.with_judged(j, 0).with_stage(Stage::Refused);
    }
    if run.judged.unnamed.is_some() {
        return run.with_judged(j, run.shown);
    }
    let Some(line) = j.unnamed else {
        return run.with_judged(j, run.shown);
    };
    let k = line.wrapping_sub(run.judged.lines).wrapping_sub(1);
    let n = put::put(shown, 0, pieces::first_line(pieces::from_line(part, k)));
    run.with_judged(j, n)
}

// The buffer is filled to n. More than 64 bytes that no newline has ended are no line.
fn look_lines<S: Streams>(
    rt: &S,
    back: bool,
    piece: &mut [u8],
    n: usize,
    shown: &mut [u8],
    run: Run,
) -> Run {
    let n = n.min(piece.len());
    let e = pieces::whole(&piece[0..n]);
    let r = look_at(rt, back, &piece[0..e], shown, run);
    if !r.goes_on() {
        return r;
    }
    if 64 < n - e {
        return look_at(rt, back, &piece[e..n], shown, r);
    }
    r.with_held(pieces::move_down(piece, e, n))
}

// The input has ended; the last bytes are no line where no newline ended them.
fn look_end<S: Streams>(rt: &S, back: bool, piece: &[u8], shown: &mut [u8], run: Run) -> Run {
    let n = run.held.min(piece.len());
    let r = look_at(rt, back, &piece[0..n], shown, run);
    if !r.goes_on() {
        return r;
    }
    let Some(line) = r.judged.unnamed else {
        return r.with_stage(Stage::Ended);
    };
    let k = r.shown.min(shown.len());
    say::unnamed(rt, back, line, &shown[..k]);
    r.with_stage(Stage::Refused)
}

// The buffer is filled to n: what is new is kept, where that is to be.
fn look_filled<S: Streams>(
    rt: &S,
    back: bool,
    kept: bool,
    file: &mut S::File,
    piece: &mut [u8],
    n: usize,
    shown: &mut [u8],
    run: Run,
) -> Run {
    if let Err(error) = pieces::keep(rt, kept, file, piece, run.held, n) {
        say::keeping_failed(rt, back, error);
        return run.with_stage(Stage::Failed);
    }
    look_lines(rt, back, piece, n, shown, run)
}

fn look_piece<S: Streams>(
    rt: &S,
    back: bool,
    kept: bool,
    file: &mut S::File,
    piece: &mut [u8],
    shown: &mut [u8],
    run: Run,
) -> Run {
    let mut from = rt.reader();
    match pieces::fill(rt, &mut from, piece, run.held) {
        Ok(Some(n)) => look_filled(rt, back, kept, file, piece, n, shown, run),
        Ok(None) => look_end(rt, back, piece, shown, run),
        Err(error) => {
            say::input_failed(rt, back, error);
            run.with_stage(Stage::Failed)
        }
    }
}

// Reads to the end of the input, or to a line that cannot be read. A proved loop has to end, and
// nothing says that an input does: so the reads are counted, to a number that no run uses up.
pub(crate) fn look<S: Streams>(
    rt: &S,
    back: bool,
    kept: bool,
    file: &mut S::File,
    piece: &mut [u8],
    shown: &mut [u8],
) -> Run {
    let mut r = Run::start();
    for _ in 0..u64::MAX {
        r = look_piece(rt, back, kept, file, piece, shown, r);
        if !r.goes_on() {
            return r;
        }
    }
    r
}

// Standard input by lines, for the programs that answer each line by itself.
//
// What is read of a line is held in a lent buffer until the line ends. No contract can say what is
// read or written: these functions are proved safe and to end.
#![tactic(auto)]

ghost use Rattle.std.specs.Prelude.{◌≡◌, ◌≤◌, ℕ, length};
ghost use Rattle.by_lines.specs.declared.End.{End};

mod run;
pub mod whole;

use lines::hold::hold;
pub use run::{Run, Stage};
use std::io::{Error, Result};
use streams::{Status, Streams};

// Where a line ended: at a newline, which is no part of it; at the end of the input; or at the end
// of the buffer, in which it is not held whole.
#[derive(Clone, Copy, PartialEq, Eq)]
pub enum End {
    Newline,
    Input,
    Buffer,
}

// How a line was answered; or larger buffers have to go on with it.
#[derive(Clone, Copy, PartialEq, Eq)]
pub enum Answered {
    Done,
    Refused,
    Larger,
}

// What a program does with its lines. fits: what has to be so of its buffers; a line that fills the
// buffer for lines has at least cut_from bytes.
pub trait Answers<S: Streams> {
    ghost fits: { Self → Type 0 } = { λ _. Unit {0} };

    ghost cut_from: { Self → ℕ } = { λ _. 0 };

    // Answers line `number`; fails where standard output does.
    fn answer(&mut self, rt: &S, line: &[u8], number: u64, end: End) -> Result<Answered>
        requires fits { fits self.old }
        requires cut { end ≡ End.Buffer → cut_from self.old ≤ length line.now }
        ensures fits { fits self.new }
        ensures cut_from { cut_from self.new ≡ cut_from self.old };
}

// The program `name`, whose lines are read. larger: it has larger buffers, which go on where a line
// does not fit the smaller ones.
#[derive(Clone, Copy)]
pub struct Reader<'a, S> {
    pub rt: &'a S,
    pub name: &'a [u8],
    pub larger: bool,
}

impl<'a, S: Streams> Reader<'a, S> {
    fn failed(&self, what: &[u8], error: Error, run: Run) -> Run {
        wording::fail(self.rt, self.name, what, error);
        run.with_stage(Stage::Failed)
    }

    // A line has ended.
    fn answer<A: Answers<S>>(&self, line: &[u8], end: End, run: Run, to: &mut A) -> Run
        requires fits { A.fits to.old }
        requires cut { end ≡ End.Buffer → A.cut_from to.old ≤ length line.now }
        ensures fits { A.fits to.new }
        ensures cut_from { A.cut_from to.new ≡ A.cut_from to.old }
    {
        match to.answer(self.rt, line, run.number(), end) {
            Ok(Answered::Done) => run.with_line(false),
            Ok(Answered::Refused) => run.with_line(true),
            Ok(Answered::Larger) => run.with_stage(Stage::Larger),
            Err(error) => self.failed(b": standard output", error, run),
        }
    }

    // The next part of a line, which ends there or not. What is held stays where larger buffers
    // have to go on.
    fn take_part<A: Answers<S>>(
        &self,
        part: &[u8],
        ended: bool,
        run: Run,
        line: &mut [u8],
        to: &mut A,
    ) -> Run
        requires fits { A.fits to.old }
        requires room { A.cut_from to.old ≤ length line.old }
        ensures fits { A.fits to.new }
        ensures cut_from { A.cut_from to.new ≡ A.cut_from to.old }
    {
        let held = run.held.min(line.len());
        let fits = part.len() < line.len() - held;
        if self.larger & !fits {
            return run.with_stage(Stage::Larger);
        }
        let n = hold(line, held, part);
        if !ended {
            return run.begun(n);
        }
        let end = if fits { End::Newline } else { End::Buffer };
        self.answer(&line[..n], end, run, to)
    }

    // Answers the lines that end in piece. No `split`: it does not tell whether a newline ended the
    // last part, nor where larger buffers go on.
    fn take_piece<A: Answers<S>>(&self, piece: &[u8], run: Run, line: &mut [u8], to: &mut A) -> Run
        requires fits { A.fits to.old }
        requires room { A.cut_from to.old ≤ length line.old }
        ensures fits { A.fits to.new }
        ensures cut_from { A.cut_from to.new ≡ A.cut_from to.old }
    {
        let n = piece.len();
        let mut r = run;
        let mut i = 0;
        while i < n {
            let e = scan::find(piece, i, n, b'\n');
            r = self.take_part(&piece[i..e], e < n, r, line, to);
            if !r.goes_on() {
                return Run {
                    rest: i,
                    end: n,
                    ..r
                };
            }
            i = e + 1;
        }
        r
    }

    // The input has ended.
    fn end<A: Answers<S>>(&self, run: Run, line: &[u8], to: &mut A) -> Run
        requires { A.fits to.old }
        ensures fits { A.fits to.new }
        ensures cut_from { A.cut_from to.new ≡ A.cut_from to.old }
    {
        let n = run.held.min(line.len());
        if n == 0 {
            return run.with_stage(Stage::Ended);
        }
        let r = self.answer(&line[..n], End::Input, run, to);
        if r.goes_on() {
            return r.with_stage(Stage::Ended);
        }
        r
    }

    fn read_piece<A: Answers<S>>(
        &self,
        piece: &mut [u8],
        run: Run,
        line: &mut [u8],
        to: &mut A,
    ) -> Run
        requires fits { A.fits to.old }
        requires room { A.cut_from to.old ≤ length line.old }
        ensures fits { A.fits to.new }
        ensures cut_from { A.cut_from to.new ≡ A.cut_from to.old }
    {
        match streams::read_input(self.rt, piece) {
            Ok(0) => self.end(run, line, to),
            Ok(n) => self.take_piece(&piece[..n], run, line, to),
            Err(error) => self.failed(b": standard input", error, run),
        }
    }

    // Reads to the end of the input. A proved loop has to end, and nothing says that an input does:
    // so the reads are counted, to a number that no run uses up.
    pub fn read<A: Answers<S>>(
        &self,
        piece: &mut [u8],
        run: Run,
        line: &mut [u8],
        to: &mut A,
    ) -> Run
        requires fits { A.fits to.old }
        requires room { A.cut_from to.old ≤ length line.old }
        ensures fits { A.fits to.new }
        ensures cut_from { A.cut_from to.new ≡ A.cut_from to.old }
    {
        let mut r = run;
        for _ in 0..u64::MAX {
            r = self.read_piece(piece, r, line, to);
            if !r.goes_on() {
                return r;
            }
        }
        r
    }

    // Goes on in the larger buffers: front is what was held of a line, and rest that of a piece.
    pub fn read_on<A: Answers<S>>(
        &self,
        front: &[u8],
        rest: &[u8],
        piece: &mut [u8],
        run: Run,
        line: &mut [u8],
        to: &mut A,
    ) -> Run
        requires fits { A.fits to.old }
        requires room { A.cut_from to.old ≤ length line.old }
        ensures fits { A.fits to.new }
        ensures cut_from { A.cut_from to.new ≡ A.cut_from to.old }
    {
        let n = hold(line, 0, front);
        let r = self.take_piece(rest, run.begun(n), line, to);
        if !r.goes_on() {
            return r;
        }
        self.read(piece, r, line, to)
    }
}

// Answers all lines of the input of a program that has no larger buffers, and gives the status.
pub fn serve<S: Streams, A: Answers<S>>(
    rt: &S,
    name: &[u8],
    piece: &mut [u8],
    line: &mut [u8],
    to: &mut A,
) -> Status
    requires fits { A.fits to.old }
    requires room { A.cut_from to.old ≤ length line.old }
{
    let reader = Reader {
        rt,
        name,
        larger: false,
    };
    reader.read(piece, Run::start(), line, to).status()
}

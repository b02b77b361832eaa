// What a line asks: an image in hex, one space, and a call or a holds line, or a run, or which load
// has a frame.
ghost use Rattle.std.specs.Prelude.{◌≡◌};
ghost use Rattle.answer.specs.Asks.{run_read, find_at, find_of, find_read, ask_of, asked_of, AskIs};
ghost use Rattle.answer.specs.Replies.{served_line, served};

use crate::reply::Ask;
use hexed::HexError;
use lines::Line;

// The image's length and what is to be done with it; or that there is no room for the image; or
// that the line asks nothing. The three are three ends, and no Result of an Option says them
// better.
#[derive(Clone, Copy)]
pub enum Asked {
    Step(usize, Ask),
    Long,
    Unreadable,
}

fn serves_line(l: Line) -> bool
    ensures { result ≡ served_line l }
{
    match l {
        Line::Site(_, _, _) => false,
        Line::Call(_) => true,
        Line::Holds(_, _, _, _) => true,
        Line::Unreadable => false,
    }
}

pub(crate) fn serves(l: Ask) -> bool
    ensures { result ≡ served l }
{
    match l {
        Ask::Line(k) => serves_line(k),
        Ask::Run(_) => true,
        Ask::Find(_, _) => true,
    }
}

// A text that is no line of a trace: where it is no run, it asks something else.
fn run_or(t: Option<u32>, other: Ask) -> Ask
    ensures { result ≡ run_read t other }
{
    match t {
        Some(steps) => Ask::Run(steps),
        None => other,
    }
}

fn find_at(c: u32, left: Option<u32>) -> Ask
    ensures { result ≡ find_at c left }
{
    match left {
        Some(k) => Ask::Find(c, k),
        None => Ask::Line(Line::Unreadable),
    }
}

fn find_of(c: Option<u32>, left: Option<u32>) -> Ask
    ensures { result ≡ find_of c left }
{
    match c {
        Some(k) => find_at(k, left),
        None => Ask::Line(Line::Unreadable),
    }
}

// The word `find` and two numbers: the second is parted from the first by the text's second space.
fn read_find(text: &[u8]) -> Ask
    ensures { result ≡ find_read text.now }
{
    let n = text.len();
    if (n < 5) | (64 < n) {
        return Ask::Line(Line::Unreadable);
    }
    let e = scan::find(text, 5, n, 32);
    let c = lines::read_one(b"find ", &text[0..e]);
    let left = lines::read_one(b" ", &text[e..n]);
    find_of(c, left)
}

pub fn read_ask(text: &[u8]) -> Ask
    ensures { result ≡ ask_of text.now }
{
    let l = lines::read_line(text);
    match l {
        Line::Site(_, _, _) => Ask::Line(l),
        Line::Call(_) => Ask::Line(l),
        Line::Holds(_, _, _, _) => Ask::Line(l),
        Line::Unreadable => {
            let run = lines::read_one(b"run ", text);
            run_or(run, read_find(text))
        }
    }
}

fn found(h: Result<usize, HexError>, l: Ask) -> Asked
    ensures { result ≡ asked_of h l }
{
    match h {
        Ok(k) => Asked::Step(k, l),
        Err(HexError::Long) => Asked::Long,
        Err(HexError::Bad) => Asked::Unreadable,
    }
}

// The image that the line names goes to the front of the buffer.
pub(crate) fn ask(line: &[u8], image: &mut [u8]) -> Asked
    ensures { AskIs line.now image.old result image.new }
{
    let n = line.len();
    let e = scan::find(line, 0, n, 32);
    if e == n {
        return Asked::Unreadable;
    }
    let l = read_ask(&line[e + 1..n]);
    if !serves(l) {
        return Asked::Unreadable;
    }
    found(hexed::read_hex(&line[0..e], image), l)
}

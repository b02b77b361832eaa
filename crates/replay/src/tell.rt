// A refused line in words: its number, its own text and what the refusal means. All of it is done
// only when a run is over, from the state before the last piece was fed.
ghost use Rattle.std.specs.Prelude.{◌≤◌, length};
ghost use Rattle.io.specs.Counts.{IsPrefixLen};

use feed::state::Feed;
use lines::Line;
use streams::Streams;
use wording::fault::{Fault, fault_of};
use wording::put::put;

const UNREADABLE: u64 = 11;

// The place past the first n newlines of piece, or its end.
fn past_lines(piece: &[u8], n: u64) -> usize
    ensures { result ≤ length piece.now }
{
    let mut left = n;
    for (i, b) in piece.iter().enumerate() {
        if left == 0 {
            return i;
        }
        if *b == b'\n' {
            left -= 1;
        }
    }
    piece.len()
}

// The first n bytes of line, or all.
fn put_first(text: &mut [u8], line: &[u8], n: usize) -> usize
    ensures { IsPrefixLen result text.new }
{
    put(text, 0, &line[..n.min(line.len())])
}

// What is held of the line that has begun.
fn held(text: &mut [u8], f: Feed) -> usize
    ensures { IsPrefixLen result text.new }
{
    let held = f.held;
    let line = held.line;
    put_first(text, &line, held.len)
}

// The beginning of the line n lines after the one that has begun: f was the state before piece.
fn gather(text: &mut [u8], f: Feed, piece: &[u8], n: u64) -> usize
    ensures { IsPrefixLen result text.new }
{
    let a = past_lines(piece, n);
    let e = scan::find(piece, a, piece.len(), 10);
    if n == 0 {
        let p = held(text, f);
        return put(text, p, &piece[a..e]);
    }
    put(text, 0, &piece[a..e])
}

// A line that can be read, and not here.
fn tell_misplaced<S: Streams>(rt: &S, k: u64, text: &[u8]) {
    if k == 1 {
        say(rt, k, text, b"the first line has to be a site line");
        return;
    }
    say(rt, k, text, b"a trace has at most 4,294,967,295 lines");
}

fn say<S: Streams>(rt: &S, k: u64, text: &[u8], words: &[u8]) {
    wording::refuse(rt, b"replay", Some(k), text, UNREADABLE, words);
}

fn tell_other<S: Streams>(rt: &S, k: u64, text: &[u8]) {
    match lines::read_line(text) {
        Line::Site(_, _, _) => say(rt, k, text, b"a site line stands first and nowhere else"),
        Line::Call(_) | Line::Holds(_, _, _, _) => tell_misplaced(rt, k, text),
        Line::Unreadable => say(rt, k, text, b""),
    }
}

// What is wrong with it. Of a longer line only the first 65 bytes are here, and none of them counts
// as its last.
fn fault_in(seen: &mut [u8], text: &[u8], ended: bool) -> Fault {
    if text.len() < 65 {
        return fault_of(text, ended);
    }
    let p = put(seen, 0, &text[0..64]);
    let p = put(seen, p, b"x");
    fault_of(&seen[..p], ended)
}

fn tell_unreadable<S: Streams>(rt: &S, k: u64, text: &[u8], ended: bool) {
    let mut seen = [0u8; 65];
    let why = fault_in(&mut seen, text, ended);
    if let Fault::Other = why {
        tell_other(rt, k, text);
    } else {
        wording::refuse_unreadable(rt, b"replay", Some(k), text, why);
    }
}

fn tell_line<S: Streams>(rt: &S, k: u64, text: &[u8], code: u64) {
    if code == UNREADABLE {
        tell_unreadable(rt, k, text, true);
        return;
    }
    wording::refuse(rt, b"replay", Some(k), text, code, b"");
}

// Line k was refused as piece was fed to f, and said ends with the answer.
fn tell_in<S: Streams>(rt: &S, text: &mut [u8], f: Feed, k: u64, piece: &[u8], said: &[u8]) {
    let code = wording::number::code(said);
    let n = gather(text, f, piece, k.saturating_sub(f.k));
    tell_line(rt, k, &text[..n], code);
}

// Tells of the line that ended the run as piece was fed, where one did. f and g are the states
// before and after it.
pub(crate) fn tell_refused<S: Streams>(rt: &S, f: Feed, g: Feed, piece: &[u8], said: &[u8]) {
    if feed::is_ended(f) {
        return;
    }
    if feed::is_ended(g) {
        let mut text = [0u8; 65];
        tell_in(rt, &mut text, f, g.k, piece, said);
    }
}

fn tell_held<S: Streams>(rt: &S, text: &mut [u8], f: Feed) {
    let n = held(text, f);
    tell_unreadable(rt, f.k, &text[..n], false);
}

// Tells of the last line, which has begun and which no newline ended.
pub(crate) fn tell_unended<S: Streams>(rt: &S, f: Feed) {
    let mut text = [0u8; 65];
    tell_held(rt, &mut text, f);
}

// Refused lines in words, on standard error.
use lines::Line;
use streams::Streams;
use wording::fault;
use wording::fault::Fault;

// What stands behind the line's first space, or the whole line where it has none.
fn call_of(line: &[u8]) -> &[u8] {
    let n = line.len();
    let e = scan::find(line, 0, n, 32);
    if e == n {
        return line;
    }
    &line[e + 1..n]
}

fn say_why<S: Streams>(rt: &S, text: &[u8], k: u64, why: &[u8]) {
    wording::refuse(rt, b"apply", Some(k), text, 11, why);
}

fn say_fault<S: Streams>(rt: &S, text: &[u8], k: u64, why: Fault) {
    wording::refuse_unreadable(rt, b"apply", Some(k), text, why);
}

// A call of more than 64 bytes is too long; of a shorter one it is not plain what is wrong.
fn say_call<S: Streams>(rt: &S, call: &[u8], k: u64) {
    if 64 < call.len() {
        say_fault(rt, call, k, Fault::Long);
    } else {
        say_fault(rt, call, k, Fault::Other);
    }
}

// The line has an image, a space and this call.
fn say_parted<S: Streams>(rt: &S, call: &[u8], k: u64) {
    match lines::read_line(call) {
        Line::Site(_, _, _) => say_why(rt, call, k, b"a site line asks nothing of an image"),
        Line::Call(_) | Line::Holds(_, _, _, _) => {
            say_why(rt, call, k, b"the image is not in hex")
        }
        Line::Unreadable => say_call(rt, call, k),
    }
}

// Nothing plain is wrong with the line as a whole.
fn say_parts<S: Streams>(rt: &S, line: &[u8], k: u64) {
    let n = line.len();
    let e = scan::find(line, 0, n, 32);
    if e == n {
        say_why(rt, line, k, b"no space parts an image from a call");
        return;
    }
    say_parted(rt, &line[e + 1..n], k);
}

// Line k cannot be read; a newline ends it or not.
pub(crate) fn say_unreadable<S: Streams>(rt: &S, line: &[u8], ended: bool, k: u64) {
    match fault::fault_of(line, ended) {
        Fault::Long | Fault::Other => say_parts(rt, line, k),
        plain => say_fault(rt, call_of(line), k, plain),
    }
}

// Line k is refused by this number.
pub(crate) fn say_refused<S: Streams>(rt: &S, line: &[u8], code: u64, k: u64) {
    if code == 11 {
        say_unreadable(rt, line, true, k);
        return;
    }
    wording::refuse(rt, b"apply", Some(k), call_of(line), code, b"");
}

// The text is refused by this number for its image's length.
pub(crate) fn say_too_long<S: Streams>(rt: &S, line: Option<u64>, text: &[u8], code: u64) {
    wording::refuse(
        rt,
        b"apply",
        line,
        text,
        code,
        b"the image is longer than the longest of any site, 10657940 bytes",
    );
}

// Line k is, which may be the first part of one alone.
pub(crate) fn say_long_line<S: Streams>(rt: &S, line: &[u8], code: u64, k: u64) {
    say_too_long(rt, Some(k), call_of(line), code);
}

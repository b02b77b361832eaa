// Refused lines in words, on standard error.
use streams::Streams;
use wording::fault;
use wording::fault::Fault;

fn say_why<S: Streams>(rt: &S, line: &[u8], k: u64, code: u64, why: &[u8]) {
    wording::refuse(rt, b"desk", Some(k), line, code, why);
}

// What is wrong with line k, where that is plain; a newline ends it or not.
pub(crate) fn say_unreadable<S: Streams>(rt: &S, line: &[u8], ended: bool, k: u64) {
    match fault::fault_of(line, ended) {
        Fault::Long | Fault::Other => say_why(rt, line, k, 11, b"it is no line at the desk"),
        plain => wording::refuse_unreadable(rt, b"desk", Some(k), line, plain),
    }
}

// Line k is refused by this number.
pub(crate) fn say_refused<S: Streams>(rt: &S, line: &[u8], code: u32, k: u64) {
    let why: &[u8] = match code {
        19 => b"that side already waits with this number",
        20 => b"that side is full",
        21 => b"no waiting right frame is near enough",
        23 => b"the named frame does not wait",
        _ => b"",
    };
    say_why(rt, line, k, code as u64, why);
}

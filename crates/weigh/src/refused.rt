// Refused lines in words, on standard error.
use streams::Streams;
use wording::fault;
use wording::fault::Fault;

fn say_why<S: Streams>(rt: &S, line: &[u8], k: u64, code: u64, why: &[u8]) {
    wording::refuse(rt, b"longer", Some(k), line, code, why);
}

// What is wrong with line k, where that is plain; a newline ends it or not.
pub(crate) fn say_unreadable<S: Streams>(rt: &S, line: &[u8], ended: bool, k: u64) {
    match fault::fault_of(line, ended) {
        Fault::Long | Fault::Other => say_why(
            rt,
            line,
            k,
            11,
            b"it is not two lists of at most 4,096 records",
        ),
        plain => wording::refuse_unreadable(rt, b"longer", Some(k), line, plain),
    }
}

pub(crate) fn say_differs<S: Streams>(rt: &S, line: &[u8], k: u64) {
    say_why(rt, line, k, 22, b"a number that both lists hold differs");
}

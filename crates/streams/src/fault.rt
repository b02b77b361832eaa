// A failure in words, on standard error.
use crate::host::{Streams, write_errors};
use std::io::{Cursor, Error, Write};

// The system's words for a failure end before its number, ` (os error N)`.
fn words_of(text: &[u8]) -> &[u8] {
    let mark = b" (os error ";
    match text
        .windows(mark.len())
        .position(|part| part == mark.as_slice())
    {
        Some(i) => &text[..i],
        None => text,
    }
}

// What failed, a colon, and the system's words for why, in a line: `what: why`.
pub fn fail<S: Streams>(rt: &S, what: &[u8], error: Error) {
    let mut text = [0u8; 128];
    let mut why = Cursor::new(&mut text[..]);
    let _ = write!(why, "{error}");
    let n = why.position() as usize;
    let n = n.min(text.len());
    write_errors(rt, what);
    write_errors(rt, b": ");
    write_errors(rt, words_of(&text[..n]));
    write_errors(rt, b"\n");
}

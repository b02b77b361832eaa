// An input that is read whole, before it is looked at.
ghost use Rattle.std.specs.Prelude.{◌≡◌, ◌≤◌, IfOk, IfSome, length};
ghost use Rattle.by_lines.specs.Whole.{begins_with_text};

use std::io::Result;
use streams::Streams;

// Reads to the end of the input, behind the n bytes that are there, and gives how many there are
// then; none where the input fills the buffer. No `for`: it goes on behind what was read.
pub fn fill<S: Streams>(rt: &S, buf: &mut [u8], n: usize) -> Result<Option<usize>>
    ensures { IfOk result (λ whole. IfSome whole (λ k. k ≤ length buf.new)) }
{
    let mut k = n;
    while k < buf.len() {
        match streams::read_input(rt, &mut buf[k..])? {
            0 => return Ok(Some(k)),
            more => k += more,
        }
    }
    Ok(None)
}

// An image begins with the count of its bodies, a byte below 8, and its hex with a digit.
pub fn is_hex(input: &[u8]) -> bool
    ensures { result ≡ begins_with_text input.now }
{
    match input.first() {
        Some(b) => 8 <= *b,
        None => false,
    }
}

// The text without the newline that may end it.
pub fn line_of(text: &[u8]) -> &[u8] {
    match text.split_last() {
        Some((b'\n', line)) => line,
        _ => text,
    }
}

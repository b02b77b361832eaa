// The whole input as one image, in raw bytes or in hex.
ghost use Rattle.std.specs.Prelude.{◌≤◌, length};

use crate::buffers::Job;
use crate::{buffers, shown};
use by_lines::whole;
use rules::model::Refusal;
use std::env::Env;
use std::io::{Error, Result};
use streams::{Status, Streams};

const TEXT: usize = 65536;

// The contents, or the body that argument 3 names.
fn show<S: Streams>(rt: &S, out: &mut [u8], image: &[u8], text: &[u8]) -> Status {
    match lines::read_one(b"body ", text) {
        Some(k) => shown::show_body(rt, out, image, k),
        None => shown::show_contents(rt, out, image),
    }
}

fn show_hex<S: Streams>(
    rt: &S,
    out: &mut [u8],
    input: &[u8],
    image: &mut [u8],
    text: &[u8],
) -> Status {
    match hexed::read_hex(whole::line_of(input), image) {
        Ok(n) => show(rt, out, &image[..n.min(image.len())], text),
        Err(_) => shown::refuse(rt, Refusal::Form),
    }
}

fn show_input<S: Streams>(
    rt: &S,
    out: &mut [u8],
    input: &[u8],
    image: &mut [u8],
    text: &[u8],
) -> Status {
    if whole::is_hex(input) {
        return show_hex(rt, out, input, image, text);
    }
    show(rt, out, input, text)
}

fn failed<S: Streams>(rt: &S, error: Error) -> Status {
    streams::fail(rt, b"bodies: standard input", error);
    Status::Failed
}

fn show_filled<S: Streams>(
    rt: &S,
    filled: Result<Option<usize>>,
    out: &mut [u8],
    input: &[u8],
    image: &mut [u8],
    text: &[u8],
) -> Status {
    match filled {
        Ok(Some(n)) => show_input(rt, out, &input[..n.min(input.len())], image, text),
        Ok(None) => shown::refuse(rt, Refusal::Form),
        Err(error) => failed(rt, error),
    }
}

// In the larger set, which only what is no image of a site fills. front: what is there of the
// input; text: what is asked.
pub(crate) fn show_rest<S: Streams>(
    rt: &S,
    front: &[u8],
    text: &[u8],
    input: &mut [u8],
    image: &mut [u8],
) -> Status {
    let mut out = [0u8; TEXT];
    let n = wording::put::put(input, 0, front);
    let filled = whole::fill(rt, input, n);
    show_filled(rt, filled, &mut out, input, image, text)
}

fn show_text<S: Streams>(
    rt: &S,
    out: &mut [u8],
    input: &mut [u8],
    image: &mut [u8],
    text: &[u8],
) -> Status {
    match whole::fill(rt, input, 0) {
        Ok(None) => buffers::serve_large(rt, Job::Image, input, text),
        filled => show_filled(rt, filled, out, input, image, text),
    }
}

// Argument 3, nothing where there is none or a longer one.
fn asked<S: Streams>(rt: &S, text: &mut [u8]) -> usize
    ensures { result ≤ length text.new }
{
    rt.arg(3, text).unwrap_or(0)
}

pub(crate) fn serve_image<S: Streams>(rt: &S, input: &mut [u8], image: &mut [u8]) -> Status {
    let mut out = [0u8; TEXT];
    let mut text = [0u8; 64];
    let n = asked(rt, &mut text);
    show_text(rt, &mut out, input, image, &text[..n])
}

// Refusals in words, on standard error: one write a message.
//
// No contract can say what is written: the functions that write are proved safe and to end. A
// message has room for every name of a program and some 500 bytes of last words.
#![tactic(auto)]

pub mod fault;
mod meaning;
pub mod number;
pub mod put;

use fault::Fault;
use meaning::{put_fault, put_meaning};
use put::{put, put_number, put_shown};
use std::io::Error;
use streams::Streams;

// The program's name, and the number of the line in which the refused text stands, where it does
// not stand alone.
fn put_place(out: &mut [u8], name: &[u8], line: Option<u64>) -> usize {
    let p = put(out, 0, name);
    let p = put(out, p, b": ");
    let Some(k) = line else {
        return p;
    };
    let p = put(out, p, b"line ");
    let p = put_number(out, p, k);
    put(out, p, b" ")
}

// These, the text, and the refusal's number and meaning.
fn put_refusal(out: &mut [u8], name: &[u8], line: Option<u64>, text: &[u8], code: u64) -> usize {
    let p = put_place(out, name, line);
    let p = put_shown(out, p, text);
    let p = put(out, p, b": refused ");
    let p = put_number(out, p, code);
    put_meaning(out, p, code)
}

// The last words, where there are some.
fn put_last(out: &mut [u8], at: usize, last: &[u8]) -> usize {
    if last.len() == 0 {
        return at;
    }
    let p = put(out, at, b": ");
    put(out, p, last)
}

// Ends the message and sends it.
fn send_message<S: Streams>(rt: &S, out: &mut [u8], at: usize) {
    let p = put(out, at, b"\n");
    streams::write_errors(rt, &out[..p]);
}

fn send_refusal<S: Streams>(
    rt: &S,
    out: &mut [u8],
    name: &[u8],
    line: Option<u64>,
    text: &[u8],
    code: u64,
    last: &[u8],
) {
    let p = put_refusal(out, name, line, text, code);
    let p = put_last(out, p, last);
    send_message(rt, out, p);
}

// What failed of the program `name`, and the system's words for why: in the writes of
// `streams::fail`, which are several.
pub fn fail<S: Streams>(rt: &S, name: &[u8], what: &[u8], error: Error) {
    let mut text = [0u8; 128];
    let p = put(&mut text, 0, name);
    let p = put(&mut text, p, what);
    streams::fail(rt, &text[..p], error);
}

// The text, of the line of this number or alone, is refused by code; last are the caller's own
// words on it, or none.
pub fn refuse<S: Streams>(
    rt: &S,
    name: &[u8],
    line: Option<u64>,
    text: &[u8],
    code: u64,
    last: &[u8],
) {
    let mut out = [0u8; 1024];
    send_refusal(rt, &mut out, name, line, text, code, last);
}

fn send_unreadable<S: Streams>(
    rt: &S,
    out: &mut [u8],
    name: &[u8],
    line: Option<u64>,
    text: &[u8],
    why: Fault,
) {
    let p = put_refusal(out, name, line, text, 11);
    let p = put_fault(out, p, why);
    send_message(rt, out, p);
}

// The text cannot be read, for this fault.
pub fn refuse_unreadable<S: Streams>(
    rt: &S,
    name: &[u8],
    line: Option<u64>,
    text: &[u8],
    why: Fault,
) {
    let mut out = [0u8; 1024];
    send_unreadable(rt, &mut out, name, line, text, why);
}

fn send_words<S: Streams>(rt: &S, out: &mut [u8], name: &[u8], words: &[u8]) {
    let p = put(out, 0, name);
    let p = put(out, p, b": ");
    let p = put(out, p, words);
    send_message(rt, out, p);
}

// Says these words.
pub fn say<S: Streams>(rt: &S, name: &[u8], words: &[u8]) {
    let mut out = [0u8; 1024];
    send_words(rt, &mut out, name, words);
}

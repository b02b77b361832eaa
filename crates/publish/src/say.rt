// Failures and refusals in words.
use crate::pieces;
use std::io::Error;
use streams::{Status, Streams};
use wording::fault;

fn name(back: bool) -> &'static [u8] {
    if back { b"unpublish" } else { b"publish" }
}

// Line k has no name.
pub(crate) fn unnamed<S: Streams>(rt: &S, back: bool, k: u64, line: &[u8]) {
    wording::refuse(
        rt,
        name(back),
        Some(k),
        line,
        18,
        b"it has no published name",
    );
}

// Line k cannot be read: the first of text, which a newline ends or not.
pub(crate) fn unreadable<S: Streams>(rt: &S, back: bool, k: u64, text: &[u8]) {
    let line = pieces::first_line(text);
    let why = fault::fault_of(line, line.len() < text.len());
    wording::refuse_unreadable(rt, name(back), Some(k), line, why);
}

fn failed<S: Streams>(rt: &S, back: bool, what: &[u8], error: Error) {
    wording::fail(rt, name(back), what, error);
}

pub(crate) fn input_failed<S: Streams>(rt: &S, back: bool, error: Error) {
    failed(rt, back, b": standard input", error);
}

pub(crate) fn keeping_failed<S: Streams>(rt: &S, back: bool, error: Error) {
    failed(rt, back, b": the file that keeps standard input", error);
}

pub(crate) fn output_failed<S: Streams>(rt: &S, back: bool, error: Error) {
    failed(rt, back, b": standard output", error);
}

// The second reading found another trace than the first.
pub(crate) fn input_changed<S: Streams>(rt: &S, back: bool) {
    wording::say(
        rt,
        name(back),
        b"standard input: it has changed while it was read",
    );
}

// "A refused one prints `refused N` alone."
pub(crate) fn refused<S: Streams>(rt: &S, back: bool, unreadable: bool) -> Status {
    let answer = if unreadable {
        b"refused 11\n"
    } else {
        b"refused 18\n"
    };
    if let Err(error) = streams::write_output(rt, answer) {
        output_failed(rt, back, error);
        return Status::Failed;
    }
    Status::Refused
}

// One call or run on one image, both raw: the image in and out, the call as an argument. In place
// of a call it may be asked which boxes have not answered a lease, or which load has a frame.
ghost use Rattle.std.specs.Prelude.{◌≡◌, ◌<◌, ◌≤◌, true, length};
ghost use Rattle.image.specs.Longest.{longest_of_all};
ghost use Rattle.lines.specs.Printed.{in_range};
ghost use Rattle.answer.specs.Replies.{ask_in_range};
ghost use Rattle.answer.specs.Ample.{Ample};
ghost use Rattle.apply.specs.declared.raw.Done.{Done};
ghost use Rattle.streams.specs.declared.status.Status.{Status};
ghost use Rattle.apply.specs.Room.{OnLarger};

use crate::buffers::Job;
use crate::{buffers, ran, refused, unheard};
use answer::reply::{Ask, Reply};
use answer::{ask, call, hold, tell as told};
use by_lines::whole;
use lines::Line;
use rules::model::{Answer, Cause, Refusal};
use rules::{answers, numbers};
use std::env::{Env, FillError};
use std::io::Error;
use streams::{Status, Streams};
use wait::model::Run;
use wording::fault;

const TEXT: usize = 128;

// The status to report; or the call has to be done in larger buffers, with so much of the image.
#[derive(Clone, Copy)]
pub enum Done {
    Status(Status),
    Larger(usize),
}

fn say_cause<S: Streams>(rt: &S, c: Cause) {
    match c {
        Cause::Role => wording::say(rt, b"apply", b"discarded role"),
        Cause::Phase => wording::say(rt, b"apply", b"discarded phase"),
        Cause::Number => wording::say(rt, b"apply", b"discarded number"),
        Cause::Place => wording::say(rt, b"apply", b"discarded place"),
    }
}

fn say_answer<S: Streams>(rt: &S, a: Answer) {
    match a {
        Answer::Done => wording::say(rt, b"apply", b"done"),
        Answer::Taken => wording::say(rt, b"apply", b"taken"),
        Answer::Discarded(c) => say_cause(rt, c),
        Answer::Refused(_) => {}
    }
}

// The image after the answer goes to standard output, and the answer's word to standard error.
pub(crate) fn tell<S: Streams>(rt: &S, a: Answer, image: &[u8], text: &[u8]) -> Status {
    if answers::is_refusal(a) {
        wording::refuse(
            rt,
            b"apply",
            None,
            text,
            numbers::answer_number(a) as u64,
            b"",
        );
        return Status::Refused;
    }
    if let Err(error) = streams::write_output(rt, image) {
        streams::fail(rt, b"apply: standard output", error);
        return Status::Failed;
    }
    say_answer(rt, a);
    Status::Done
}

// The image after a run goes to standard output, and what the run did to standard error.
fn tell_ran<S: Streams>(rt: &S, r: Run, image: &[u8]) -> Status {
    if let Err(error) = streams::write_output(rt, image) {
        streams::fail(rt, b"apply: standard output", error);
        return Status::Failed;
    }
    ran::say(rt, r);
    Status::Done
}

fn tell_run<S: Streams>(rt: &S, r: Run, image: &[u8], text: &[u8]) -> Status {
    match r {
        Run::Ran(_) | Run::Stopped(_, _) => tell_ran(rt, r, image),
        Run::Refused(why) => tell(rt, Answer::Refused(why), image, text),
    }
}

// The load goes to standard output in place of an image.
fn tell_line<S: Streams>(rt: &S, w: Result<Option<u32>, Refusal>, text: &[u8]) -> Status {
    let mut out = [0u8; 38];
    let n = told::put_found(&mut out, w);
    tell(rt, Answer::Done, &out[0..n], text)
}

fn tell_found<S: Streams>(rt: &S, w: Result<Option<u32>, Refusal>, text: &[u8]) -> Status {
    match w {
        Ok(_) => tell_line(rt, w, text),
        Err(why) => tell(rt, Answer::Refused(why), b"", text),
    }
}

fn tell_reply<S: Streams>(rt: &S, r: Reply, image: &[u8], text: &[u8]) -> Status {
    match r {
        Reply::Answer(a) => tell(rt, a, image, text),
        Reply::Run(k) => tell_run(rt, k, image, text),
        Reply::Found(w) => tell_found(rt, w, text),
    }
}

// What came of the call, of an image of n bytes.
fn come<S: Streams>(rt: &S, c: Option<(Reply, usize)>, n: usize, image: &[u8], text: &[u8]) -> Done
    ensures { OnLarger (λ k. (k ≡ n) × (c ≡ None)) result }
{
    match c {
        Some((a, k)) => {
            let image = &image[..k.min(image.len())];
            Done::Status(tell_reply(rt, a, image, text))
        }
        None => Done::Larger(n),
    }
}

pub(crate) fn failed<S: Streams>(rt: &S, error: Error) -> Done
    ensures { result ≡ Done.Status Status.Failed }
{
    streams::fail(rt, b"apply: standard input", error);
    Done::Status(Status::Failed)
}

// A call on the image of standard input, of which there are n bytes already.
fn call_on_input<S: Streams>(
    rt: &S,
    l: Ask,
    n: usize,
    text: &[u8],
    image: &mut [u8],
    site: &mut [u64],
    links: &mut [u64],
) -> Done
    requires { ask_in_range l ≡ true }
    ensures { OnLarger (λ k. Ample (length image.old) (length site.old)
        (length links.old) → k ≡ length image.old) result }
{
    match whole::fill(rt, image, n) {
        Ok(Some(k)) => {
            let c = call::call_on_image(l, k, image, site, links);
            come(rt, c, k, image, text)
        }
        Ok(None) => Done::Larger(image.len()),
        Err(error) => failed(rt, error),
    }
}

fn refuse_unreadable<S: Streams>(rt: &S, text: &[u8]) -> Done
    ensures { result ≡ Done.Status Status.Refused }
{
    let f = fault::fault_of(text, true);
    wording::refuse_unreadable(rt, b"apply", None, text, f);
    Done::Status(Status::Refused)
}

// A text that is no line of a trace, no run, and asks for no frame.
fn ask_in<S: Streams>(
    rt: &S,
    n: usize,
    text: &[u8],
    image: &mut [u8],
    site: &mut [u64],
    links: &mut [u64],
) -> Done
    ensures { OnLarger (λ k. Ample (length image.old) (length site.old)
        (length links.old) → k ≡ length image.old) result }
{
    match lines::read_one(b"unheard ", text) {
        Some(c) => unheard::ask_of_input(rt, c, n, text, image, site, links),
        None => refuse_unreadable(rt, text),
    }
}

// A site line asks for the image of a fresh site; then standard input is not read.
fn line_in<S: Streams>(
    rt: &S,
    l: Line,
    n: usize,
    text: &[u8],
    image: &mut [u8],
    site: &mut [u64],
    links: &mut [u64],
) -> Done
    requires { in_range l ≡ true }
    ensures { OnLarger (λ k. Ample (length image.old) (length site.old)
        (length links.old) → k ≡ length image.old) result }
{
    match l {
        Line::Site(b, j, m) => {
            let c = call::fresh_image(b, j, m, image, site, links);
            come(rt, c, 0, image, text)
        }
        Line::Call(_) => call_on_input(rt, Ask::Line(l), n, text, image, site, links),
        Line::Holds(_, _, _, _) => call_on_input(rt, Ask::Line(l), n, text, image, site, links),
        Line::Unreadable => ask_in(rt, n, text, image, site, links),
    }
}

fn call_in<S: Streams>(
    rt: &S,
    l: Ask,
    n: usize,
    text: &[u8],
    image: &mut [u8],
    site: &mut [u64],
    links: &mut [u64],
) -> Done
    requires { ask_in_range l ≡ true }
    ensures { OnLarger (λ k. Ample (length image.old) (length site.old)
        (length links.old) → k ≡ length image.old) result }
{
    match l {
        Ask::Line(k) => line_in(rt, k, n, text, image, site, links),
        Ask::Run(_) | Ask::Find(_, _) => call_on_input(rt, l, n, text, image, site, links),
    }
}

// An image of at least n bytes is longer than any site's: 1.
fn refuse_image<S: Streams>(rt: &S, n: usize, text: &[u8]) -> Status
    requires { longest_of_all < n }
{
    refused::say_too_long(rt, None, text, 1);
    Status::Refused
}

// In the larger set, where only an image that is longer than any site's has no room.
pub(crate) fn call_rest<S: Streams>(
    rt: &S,
    l: Ask,
    front: &[u8],
    text: &[u8],
    image: &mut [u8],
    site: &mut [u64],
    links: &mut [u64],
) -> Status
    requires l_value { ask_in_range l ≡ true }
    requires longest_of_all_in_bounds { longest_of_all < length image.old }
    requires ample { Ample (length image.old) (length site.old) (length links.old) }
{
    let n = hold::hold(image, 0, front);
    match call_in(rt, l, n, text, image, site, links) {
        Done::Status(s) => s,
        Done::Larger(k) => refuse_image(rt, k, text),
    }
}

fn call_small<S: Streams>(
    rt: &S,
    l: Ask,
    text: &[u8],
    image: &mut [u8],
    site: &mut [u64],
    links: &mut [u64],
) -> Status
    requires { ask_in_range l ≡ true }
{
    match call_in(rt, l, 0, text, image, site, links) {
        Done::Status(s) => s,
        Done::Larger(n) => {
            let k = n.min(image.len());
            buffers::serve_large(rt, Job::Call(l), &image[..k], text)
        }
    }
}

// Argument 3 is the call; of one that is longer than the buffer the first bytes are enough.
pub(crate) fn call_text<S: Streams>(rt: &S, text: &mut [u8]) -> usize
    ensures { result ≤ length text.new }
{
    match rt.arg(3, text) {
        Ok(n) => n,
        Err(FillError::TooLong) => text.len(),
        Err(FillError::NotPresent) => 0,
    }
}

fn call_as_asked<S: Streams>(
    rt: &S,
    text: &[u8],
    image: &mut [u8],
    site: &mut [u64],
    links: &mut [u64],
) -> Status {
    call_small(rt, ask::read_ask(text), text, image, site, links)
}

pub(crate) fn serve_call<S: Streams>(
    rt: &S,
    image: &mut [u8],
    site: &mut [u64],
    links: &mut [u64],
) -> Status {
    let mut text = [0u8; TEXT];
    let n = call_text(rt, &mut text);
    call_as_asked(rt, &text[0..n], image, site, links)
}

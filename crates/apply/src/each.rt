// A run on a raw image, step by step: each step as a line of a trace to standard output, then what
// the run did; the image after it to descriptor 4. A step is told before it is known how long the
// image will be: so this goes on in the larger buffers alone.
ghost use Rattle.std.specs.Prelude.{◌≤◌, length};

use crate::buffers::Job;
use crate::{buffers, ran, raw};
use by_lines::whole;
use rules::model::{Answer, Call, Refusal};
use rules::numbers;
use std::io::{Error, Result};
use streams::{Status, Streams};
use wait::model::Run;

const IMAGE: &str = "/proc/self/fd/4";

const TEXT: usize = 128;

fn put_one(out: &mut [u8], word: &[u8], c: u32) -> usize
    requires in_bounds { 64 ≤ length out.old }
    requires word_len_bound { length word.now ≤ 8 }
    ensures { result ≤ 29 }
{
    let p = print::put_bytes(out, 0, word);
    let p = print::put_decimal(out, p, c as u64);
    print::put_byte(out, p, 10)
}

fn put_two(out: &mut [u8], a: u32, b: u32) -> usize
    requires { 64 ≤ length out.old }
    ensures { result ≤ 50 }
{
    let p = print::put_bytes(out, 0, b"mail ");
    let p = print::put_decimal(out, p, a as u64);
    let p = print::put_byte(out, p, 32);
    let p = print::put_decimal(out, p, b as u64);
    print::put_byte(out, p, 10)
}

// The line of a step that a run takes; a run takes no other.
// A match: each call carries numbers of its own.
fn put_step(out: &mut [u8], d: Call) -> usize
    requires { 64 ≤ length out.old }
    ensures { result ≤ 50 }
{
    match d {
        Call::Deliver(a, b) => put_two(out, a, b),
        Call::Recover(c) => put_one(out, b"recover ", c),
        Call::Collect(c) => put_one(out, b"collect ", c),
        Call::Ready(c) => put_one(out, b"ready ", c),
        Call::Agree(c) => put_one(out, b"agree ", c),
        Call::Finish(c) => put_one(out, b"finish ", c),
        Call::Heard(c) => put_one(out, b"heard ", c),
        _ => 0,
    }
}

fn tell_step<S: Streams>(rt: &S, d: Call) -> Result<()> {
    let mut out = [0u8; 64];
    let n = put_step(&mut out, d);
    streams::write_output(rt, &out[0..n])
}

// The next step, after so many that were used: none where the run goes on after it. Fails where it
// could not be told.
fn take<S: Streams>(rt: &S, used: u32, site: &mut [u64], links: &mut [u64]) -> Result<Option<Run>> {
    match until::next_turn(site, links) {
        None => Ok(Some(Run::Ran(used))),
        Some(d) => match until::run(site, links, 1) {
            Run::Ran(_) => {
                tell_step(rt, d)?;
                Ok(None)
            }
            Run::Stopped(why, _) => Ok(Some(Run::Stopped(why, used))),
            Run::Refused(why) => Ok(Some(Run::Refused(why))),
        },
    }
}

// At most so many steps, each told.
fn take_each<S: Streams>(rt: &S, steps: u32, site: &mut [u64], links: &mut [u64]) -> Result<Run> {
    for used in 0..steps {
        if let Some(r) = take(rt, used, site, links)? {
            return Ok(r);
        }
    }
    Ok(Run::Ran(steps))
}

fn send<S: Streams>(rt: &S, to: Result<S::File>, image: &[u8]) -> Result<()> {
    let mut file = to?;
    streams::send(rt, &mut file, image)
}

// The image after the run; what is lent has room for that of any site.
fn send_image<S: Streams>(
    rt: &S,
    to: Result<S::File>,
    image: &mut [u8],
    site: &[u64],
    links: &[u64],
) -> Status {
    match writer::write(site, links, image) {
        Ok(n) => {
            if let Err(error) = send(rt, to, &image[..n.min(image.len())]) {
                streams::fail(rt, b"apply: the image", error);
                return Status::Failed;
            }
            Status::Done
        }
        Err(_) => Status::Refused,
    }
}

fn untold<S: Streams>(rt: &S, error: Error) -> Status {
    streams::fail(rt, b"apply: standard output", error);
    Status::Failed
}

// The call is refused: no step, and no image.
fn refuse<S: Streams>(rt: &S, why: Refusal, text: &[u8]) -> Status {
    if let Err(error) = ran::tell(rt, Run::Refused(why)) {
        return untold(rt, error);
    }
    let n = numbers::answer_number(Answer::Refused(why));
    wording::refuse(rt, b"apply", None, text, n as u64, b"");
    Status::Refused
}

fn end<S: Streams>(
    rt: &S,
    to: Result<S::File>,
    r: Run,
    text: &[u8],
    image: &mut [u8],
    site: &[u64],
    links: &[u64],
) -> Status {
    match r {
        Run::Refused(why) => refuse(rt, why, text),
        Run::Ran(_) | Run::Stopped(_, _) => {
            if let Err(error) = ran::tell(rt, r) {
                return untold(rt, error);
            }
            send_image(rt, to, image, site, links)
        }
    }
}

fn run_words<S: Streams>(
    rt: &S,
    to: Result<S::File>,
    steps: u32,
    text: &[u8],
    image: &mut [u8],
    site: &mut [u64],
    links: &mut [u64],
) -> Status {
    match until::run(site, links, 0) {
        Run::Refused(why) => return refuse(rt, why, text),
        Run::Ran(_) | Run::Stopped(_, _) => {}
    }
    match take_each(rt, steps, site, links) {
        Ok(r) => end(rt, to, r, text, image, site, links),
        Err(error) => untold(rt, error),
    }
}

fn run_image<S: Streams>(
    rt: &S,
    to: Result<S::File>,
    steps: u32,
    n: usize,
    text: &[u8],
    image: &mut [u8],
    site: &mut [u64],
    links: &mut [u64],
) -> Status {
    let a = reader::read(&image[..n.min(image.len())], site, links);
    if numbers::answer_number(a) != 0 {
        return refuse(rt, Refusal::Form, text);
    }
    run_words(rt, to, steps, text, image, site, links)
}

// In the larger set: on the image of standard input. Descriptor 4 is opened before that is read:
// the reader of a pipe may be gone at the end.
pub(crate) fn run_each<S: Streams>(
    rt: &S,
    steps: u32,
    text: &[u8],
    image: &mut [u8],
    site: &mut [u64],
    links: &mut [u64],
) -> Status {
    let to = streams::open_to_write(rt, IMAGE);
    match whole::fill(rt, image, 0) {
        Ok(Some(n)) => run_image(rt, to, steps, n, text, image, site, links),
        Ok(None) => refuse(rt, Refusal::Form, text),
        Err(error) => {
            streams::fail(rt, b"apply: standard input", error);
            Status::Failed
        }
    }
}

fn each_text<S: Streams>(rt: &S, text: &[u8]) -> Status {
    match lines::read_one(b"run ", text) {
        Some(steps) => buffers::serve_large(rt, Job::Each(steps), b"", text),
        None => refuse(rt, Refusal::Line, text),
    }
}

// Argument 3 is `run` and the number of steps.
pub(crate) fn serve_each<S: Streams>(rt: &S) -> Status {
    let mut text = [0u8; TEXT];
    let n = raw::call_text(rt, &mut text);
    each_text(rt, &text[0..n])
}

// One image in words: its contents, or one body.
use crate::fields::Body;
use crate::sheet::Page;
use crate::{boxes, mail};
use bodies::contents;
use rules::model::Refusal;
use std::io::{Result, Write};
use streams::{Status, Streams};

// What body k of an image of n boxes is.
fn put_name<W: Write>(to: &mut W, k: u64, n: u64) -> Result<()> {
    if k < 2 {
        return write!(to, "general");
    }
    let b = k - 1;
    if n < b {
        return write!(to, "mail");
    }
    write!(to, "box {b}")
}

// n of an image by form.
fn boxes_of(image: &[u8]) -> u64 {
    Body::of(contents::part(image, 1)).number()
}

// A line for each body of an image by form.
fn put_contents<W: Write>(to: &mut W, image: &[u8]) -> Result<()> {
    let n = boxes_of(image);
    for k in 1..8u32 {
        if let Ok(part) = contents::named(image, k) {
            write!(to, "body {k}: ")?;
            put_name(to, u64::from(k), n)?;
            let long = part.long;
            let begin = part.begin;
            write!(to, ", {long} bytes from {begin}\n")?;
        }
    }
    Ok(())
}

// Body k of an image by form, of n boxes.
fn put_body<W: Write>(to: &mut W, body: &[u8], k: u64, n: u64) -> Result<()> {
    if k < 2 {
        return boxes::put_general(to, body);
    }
    if n < k - 1 {
        return mail::put_all(to, body, n);
    }
    boxes::put_box(to, body, n)
}

// The image, or the body's number, is refused.
pub(crate) fn refuse<S: Streams>(rt: &S, why: Refusal) -> Status {
    let words = match why {
        Refusal::Form => b"refused 1: the image is not that of a site by form".as_slice(),
        _ => b"refused 3: the image has no body of this number",
    };
    wording::say(rt, b"bodies", words);
    Status::Refused
}

// What was written is sent, or a write failed.
fn finish<S: Streams>(mut to: Page<S>, written: Result<()>) -> Status {
    match written.and_then(|()| to.flush()) {
        Ok(()) => Status::Done,
        Err(error) => {
            streams::fail(to.rt, b"bodies: standard output", error);
            Status::Failed
        }
    }
}

// The contents of the image, which is looked at first, go to standard output.
pub(crate) fn show_contents<S: Streams>(rt: &S, out: &mut [u8], image: &[u8]) -> Status {
    if contents::first(image) == 0 {
        return refuse(rt, Refusal::Form);
    }
    let mut to = Page::on(rt, out);
    let written = put_contents(&mut to, image);
    finish(to, written)
}

// Body k of the image, which is looked at first, goes to standard output.
pub(crate) fn show_body<S: Streams>(rt: &S, out: &mut [u8], image: &[u8], k: u32) -> Status {
    if let Err(why) = bodies::body(image, k) {
        return refuse(rt, why);
    }
    let mut to = Page::on(rt, out);
    let body = contents::part(image, k);
    let written = put_body(&mut to, body, u64::from(k), boxes_of(image));
    finish(to, written)
}

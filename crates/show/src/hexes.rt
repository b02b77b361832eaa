// The image of a line, in hex: its bodies in hex, parted by one space, or that it is refused.
use crate::sheet::Page;
use bodies::contents;
use by_lines::Answered;
use std::io::{Result, Write};
use streams::Streams;

// All bodies of an image by form.
fn put_bodies<S: Streams>(to: &mut Page<S>, image: &[u8]) -> Result<()> {
    to.put_hex(contents::part(image, 1));
    for k in 2..8 {
        if contents::named(image, k).is_ok() {
            to.write_all(b" ")?;
            to.put_hex(contents::part(image, k));
        }
    }
    to.write_all(b"\n")
}

// No image of a site by form: 1, of line k, which may be the first part of one alone.
fn refuse<S: Streams>(to: &mut Page<S>, line: &[u8], k: u64) -> Result<Answered> {
    wording::refuse(to.rt, b"bodies", Some(k), line, 1, b"");
    to.write_all(b"refused 1\n")?;
    Ok(Answered::Refused)
}

fn tell<S: Streams>(to: &mut Page<S>, image: &[u8], line: &[u8], k: u64) -> Result<Answered> {
    if contents::first(image) == 0 {
        return refuse(to, line, k);
    }
    put_bodies(to, image)?;
    Ok(Answered::Done)
}

// Line k, without the newline that ended it; image is work room. One that has more digits than any
// image is not looked at.
pub(crate) fn answer<S: Streams>(
    to: &mut Page<S>,
    image: &mut [u8],
    line: &[u8],
    k: u64,
) -> Result<Answered> {
    if image.len() < line.len() / 2 {
        return refuse(to, line, k);
    }
    match hexed::read_hex(line, image) {
        Ok(n) => tell(to, &image[..n.min(image.len())], line, k),
        Err(_) => refuse(to, line, k),
    }
}

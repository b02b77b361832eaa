// One line: its answer goes to standard output, and why it is refused to standard error.
use crate::ask::Ask;
use crate::{ask, refused};
use by_lines::{Answered, Answers, End};
use desk::answers;
use hexed::HexError;
use rules::numbers;
use std::io::Result;
use streams::Streams;

// So many bytes of an image go out at once.
const PIECE: usize = 4096;

// image is work room; desk, site and links are what goes on from line to line.
#[derive(Drop)]
pub(crate) struct Room<'a> {
    pub(crate) image: &'a mut [u8],
    pub(crate) desk: &'a mut [u64],
    pub(crate) site: &'a mut [u64],
    pub(crate) links: &'a mut [u64],
}

fn send_code<S: Streams>(rt: &S, code: u32) -> Result<()> {
    let mut out = [0u8; 32];
    let p = print::put_bytes(&mut out, 0, b"refused ");
    let p = print::put_decimal(&mut out, p, code as u64);
    let p = print::put_byte(&mut out, p, 10);
    streams::write_output(rt, &out[0..p])
}

fn refuse_by<S: Streams>(rt: &S, line: &[u8], code: u32, k: u64) -> Result<Answered> {
    send_code(rt, code)?;
    refused::say_refused(rt, line, code, k);
    Ok(Answered::Refused)
}

// A line that cannot be read, or that no newline ended.
fn refuse<S: Streams>(rt: &S, line: &[u8], ended: bool, k: u64) -> Result<Answered> {
    send_code(rt, 11)?;
    refused::say_unreadable(rt, line, ended, k);
    Ok(Answered::Refused)
}

// A line that is not held whole: a site that is too large for the buffers, or no line.
fn refuse_long<S: Streams>(rt: &S, line: &[u8], k: u64) -> Result<Answered> {
    if lines::starts(b"site ", line) {
        return refuse_by(rt, line, 12, k);
    }
    refuse(rt, line, true, k)
}

// 0 is done.
fn tell<S: Streams>(rt: &S, line: &[u8], code: u32, k: u64) -> Result<Answered> {
    if code != 0 {
        return refuse_by(rt, line, code, k);
    }
    streams::write_output(rt, b"done\n")?;
    Ok(Answered::Done)
}

// The image in the line is lent; where it is refused, the site lent before stays.
fn lend<S: Streams>(
    rt: &S,
    line: &[u8],
    k: u64,
    image: &mut [u8],
    site: &mut [u64],
    links: &mut [u64],
) -> Result<Answered> {
    let at = line.len().min(ask::IMAGE);
    match hexed::read_hex(&line[at..], image) {
        Ok(n) => {
            let a = reader::read(&image[..n.min(image.len())], site, links);
            tell(rt, line, numbers::answer_number(a), k)
        }
        Err(HexError::Long) => refuse_by(rt, line, 12, k),
        Err(HexError::Bad) => refuse_by(rt, line, 1, k),
    }
}

fn send_paired<S: Streams>(rt: &S, left: u32, right: u32) -> Result<()> {
    let mut out = [0u8; 64];
    let p = print::put_bytes(&mut out, 0, b"paired ");
    let p = print::put_decimal(&mut out, p, left as u64);
    let p = print::put_byte(&mut out, p, 32);
    let p = print::put_decimal(&mut out, p, right as u64);
    let p = print::put_byte(&mut out, p, 32);
    streams::write_output(rt, &out[0..p])
}

fn send_piece<S: Streams>(rt: &S, piece: &[u8]) -> Result<()> {
    let n = piece.len().min(PIECE);
    let mut out = [0u8; 2 * PIECE + 1];
    let p = hexed::put_hex(&mut out, 0, &piece[..n]);
    streams::write_output(rt, &out[0..p])
}

fn send_hex<S: Streams>(rt: &S, image: &[u8]) -> Result<()> {
    for piece in image.chunks(PIECE) {
        send_piece(rt, piece)?;
    }
    Ok(())
}

// The pair and the image.
fn tell_paired<S: Streams>(rt: &S, left: u32, right: u32, image: &[u8]) -> Result<Answered> {
    send_paired(rt, left, right)?;
    send_hex(rt, image)?;
    streams::write_output(rt, b"\n")?;
    Ok(Answered::Done)
}

// The image after an offer is as long as the one that was lent, so it has room.
fn paired<S: Streams>(
    rt: &S,
    line: &[u8],
    left: u32,
    right: u32,
    k: u64,
    image: &mut [u8],
    site: &[u64],
    links: &[u64],
) -> Result<Answered> {
    match writer::write(site, links, image) {
        Ok(n) => tell_paired(rt, left, right, &image[..n.min(image.len())]),
        Err(_) => refuse_by(rt, line, 12, k),
    }
}

fn pair<S: Streams>(
    rt: &S,
    line: &[u8],
    left: u32,
    k: u64,
    image: &mut [u8],
    desk: &mut [u64],
    site: &mut [u64],
    links: &mut [u64],
) -> Result<Answered> {
    match desk::pair(desk, site, links, left) {
        Ok(right) => paired(rt, line, left, right, k, image, site, links),
        Err(why) => refuse_by(rt, line, answers::why_number(why), k),
    }
}

fn answer_line<S: Streams>(
    rt: &S,
    line: &[u8],
    k: u64,
    image: &mut [u8],
    desk: &mut [u64],
    site: &mut [u64],
    links: &mut [u64],
) -> Result<Answered> {
    match ask::read(line) {
        Ask::Site => lend(rt, line, k, image, site, links),
        Ask::Give(side, frame, tick) => {
            let t = desk::give(desk, side, frame, tick);
            tell(rt, line, answers::number_of(t), k)
        }
        Ask::Withdraw(side, frame) => {
            let t = desk::withdraw(desk, side, frame);
            tell(rt, line, answers::number_of(t), k)
        }
        Ask::Pair(frame) => pair(rt, line, frame, k, image, desk, site, links),
        Ask::Unreadable => refuse(rt, line, true, k),
    }
}

impl<'a, S: Streams> Answers<S> for Room<'a> {
    fn answer(&mut self, rt: &S, line: &[u8], number: u64, end: End) -> Result<Answered> {
        match end {
            End::Newline => answer_line(
                rt, line, number, self.image, self.desk, self.site, self.links,
            ),
            End::Buffer => refuse_long(rt, line, number),
            End::Input => refuse(rt, line, false, number),
        }
    }
}

// One image: its block goes to standard output, and why it is refused to standard error.
use by_lines::{Answered, Answers, End};
use hexed::HexError;
use salvage::Told;
use std::io::Result;
use streams::Streams;

// Work room: for an image, and for its block.
#[derive(Drop)]
pub(crate) struct Room<'a> {
    pub(crate) image: &'a mut [u8],
    pub(crate) out: &'a mut [u8],
}

// No sound table, or too long.
pub(crate) fn refused<S: Streams>(rt: &S) -> Result<Answered> {
    streams::write_output(rt, b"refused 17\n.\n")?;
    Ok(Answered::Refused)
}

// The block of an image.
pub(crate) fn tell<S: Streams>(rt: &S, image: &[u8], out: &mut [u8]) -> Result<Answered> {
    let (n, answered) = match salvage::salvage(image, out) {
        Told::Block(n) => (n, Answered::Done),
        Told::Refused(n) => (n, Answered::Refused),
        Told::Short => return refused(rt),
    };
    streams::write_output(rt, &out[..n.min(out.len())])?;
    Ok(answered)
}

// .. of one in hex.
pub(crate) fn tell_hex<S: Streams>(
    rt: &S,
    text: &[u8],
    image: &mut [u8],
    out: &mut [u8],
) -> Result<Answered> {
    match hexed::read_hex(text, image) {
        Ok(n) => tell(rt, &image[..n.min(image.len())], out),
        Err(HexError::Long | HexError::Bad) => refused(rt),
    }
}

// A line in hex. One that has more digits than any image is not looked at.
fn tell_line<S: Streams>(
    rt: &S,
    line: &[u8],
    image: &mut [u8],
    out: &mut [u8],
) -> Result<Answered> {
    if image.len() < line.len() / 2 {
        return refused(rt);
    }
    tell_hex(rt, line, image, out)
}

// A line that fills its buffer is longer than any image, and one that no newline ends is a line
// too.
impl<'a, S: Streams> Answers<S> for Room<'a> {
    fn answer(&mut self, rt: &S, line: &[u8], number: u64, _end: End) -> Result<Answered> {
        let answered = tell_line(rt, line, self.image, self.out)?;
        if answered == Answered::Refused {
            wording::refuse(
                rt,
                b"salvage",
                Some(number),
                line,
                17,
                b"no image of at most 65,536 bytes with a sound table of contents",
            );
        }
        Ok(answered)
    }
}

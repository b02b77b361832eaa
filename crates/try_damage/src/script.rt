// The lines of the input: an image each, or a heading.
use crate::bench::Bench;
use crate::{parts, show};
use hexed::HexError;

// There is one more byte than the image has.
fn damage(image: &mut [u8], n: usize, bench: &mut Bench) {
    if n < image.len() {
        parts::parts(&mut image[..n + 1], bench);
    } else {
        show::text(b"too long\n");
    }
}

fn line(s: &[u8], image: &mut [u8], bench: &mut Bench) {
    if matches!(s, [] | [b'#', ..]) {
        show::text(s);
        show::text(b"\n");
        return;
    }
    match hexed::read_hex(s, image) {
        Ok(n) => damage(image, n, bench),
        Err(HexError::Long) => show::text(b"too long\n"),
        Err(HexError::Bad) => show::text(b"unreadable\n"),
    }
}

// What follows the last line's end is no line, if it is empty.
pub(crate) fn play(text: &[u8], image: &mut [u8], bench: &mut Bench) {
    if text.is_empty() {
        return;
    }
    let text = text.strip_suffix(b"\n").unwrap_or(text);
    for s in text.split(|b| *b == b'\n') {
        line(s, image, bench);
    }
}

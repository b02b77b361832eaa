// Text put together in a lent buffer. What does not fit is cut.
ghost use Rattle.wording.specs.Put.{Put};

// The bytes of src from the place at on; gives the place past them.
pub fn put(out: &mut [u8], at: usize, src: &[u8]) -> usize
    ensures { Put out.old out.new at result src.now }
{
    let a = at.min(out.len());
    let n = src.len().min(out.len() - a);
    print::put_bytes(out, a, &src[..n])
}

pub(crate) fn put_number(out: &mut [u8], at: usize, x: u64) -> usize {
    let mut digits = [0u8; 20];
    let n = io::decimal(x, &mut digits);
    put(out, at, &digits[..n])
}

// A byte of a line: as it is, with a backslash before it, or in hex.
fn put_escaped(out: &mut [u8], at: usize, b: u8) -> usize {
    if (b == 34) | (b == 92) {
        return put(out, at, &[92, b]);
    }
    if (31 < b) & (b < 127) {
        return put(out, at, &[b]);
    }
    let mut digits = [0u8; 16];
    let n = io::hex(b as u64, 2, &mut digits);
    let p = put(out, at, b"\\x");
    put(out, p, &digits[..n])
}

fn put_bytes(out: &mut [u8], at: usize, text: &[u8]) -> usize {
    let mut p = at;
    for b in text {
        p = put_escaped(out, p, *b);
    }
    p
}

// The text in quotes, at most its first 64 bytes.
pub(crate) fn put_shown(out: &mut [u8], at: usize, text: &[u8]) -> usize {
    let p = put(out, at, b"\"");
    let p = put_bytes(out, p, &text[..text.len().min(64)]);
    if 64 < text.len() {
        return put(out, p, b"..\"");
    }
    put(out, p, b"\"")
}

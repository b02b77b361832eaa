// Writes numbers and words at a place of a lent buffer; each function gives the place past its
// text.
#![tactic(auto)]

ghost use Rattle.std.specs.Prelude.{◌∷◌, [], ◌+◌, ◌≤◌, ◌<◌, length, take};
ghost use Rattle.print.specs.Decimal.{decimal};
ghost use Rattle.print.specs.Text.{Wrote, refused_text};

pub fn put_byte(out: &mut [u8], at: usize, b: u8) -> usize
    requires { at < length out.old }
    ensures { Wrote 1 out.old out.new at result (b ∷ []) }
{
    out[at] = b;
    at + 1
}

// The bytes of src.
pub fn put_bytes(out: &mut [u8], at: usize, src: &[u8]) -> usize
    requires { at + length src.now ≤ length out.old }
    ensures { Wrote (length src.now)
        out.old out.new at result src.now }
{
    let end = at + src.len();
    out[at..end].copy_from_slice(src);
    end
}

// The first n bytes of text.
fn put_first(out: &mut [u8], at: usize, text: [u8; 20], n: usize) -> usize
    requires { (at + 20 ≤ length out.old) × (n ≤ length text) }
    ensures { Wrote 20 out.old out.new at result (take n text) }
{
    put_bytes(out, at, &text[..n])
}

// Any number, turned round in a buffer of its own.
fn put_long(out: &mut [u8], at: usize, x: u64) -> usize
    requires { at + 20 ≤ length out.old }
    ensures { Wrote 20 out.old out.new at result (decimal x) }
{
    let mut text = [0u8; 20];
    let n = io::decimal(x, &mut text);
    put_first(out, at, text, n)
}

// Most numbers that a replay prints have one digit or two: they go to their place at once.
// By hand over io::decimal: Display writes to a stream, and not into a lent slice.
pub fn put_decimal(out: &mut [u8], at: usize, x: u64) -> usize
    requires { at + 20 ≤ length out.old }
    ensures { Wrote 20 out.old out.new at result (decimal x) }
{
    if x < 10 {
        return put_byte(out, at, (48 + x) as u8);
    }
    if x < 100 {
        let p = put_byte(out, at, (48 + x / 10) as u8);
        return put_byte(out, p, (48 + x % 10) as u8);
    }
    put_long(out, at, x)
}

// A space, and x.
pub fn put_next(out: &mut [u8], at: usize, x: u64) -> usize
    requires { at + 21 ≤ length out.old }
    ensures { Wrote 21 out.old out.new at result (32 ∷ decimal x) }
{
    let p = put_byte(out, at, 32);
    put_decimal(out, p, x)
}

// The answer of a line that is refused.
pub fn put_refused(out: &mut [u8], at: usize, k: u64, code: u64) -> usize
    requires { at + 50 ≤ length out.old }
    ensures { Wrote 50 out.old out.new at result (refused_text k code) }
{
    let p = put_decimal(out, at, k);
    let p = put_bytes(out, p, b" refused ");
    let p = put_decimal(out, p, code);
    put_byte(out, p, 10)
}

// Bytes as text in hex: written in small letters at a place of a lent buffer, read in either case.
#![tactic(auto)]

ghost use Rattle.std.specs.Prelude.{◌∷◌, [], ◌≡◌, ◌+◌, ◌*◌, ◌≤◌, ◌<◌, length};
ghost use Rattle.print.specs.Text.{Wrote};
ghost use Rattle.hexed.specs.Hex.{
  digit as digit_of,
  digits_of,
  hex_of,
  small as small_of,
  smalls,
  value_of,
  Digits,
  Paired,
  NoBytes,
  Tells,
  HexIs,
};

// Why a text is not read: its bytes are more than the buffer has room for, or it is the hex of
// none.
#[derive(Clone, Copy)]
pub enum HexError {
    Long,
    Bad,
}

// ---- writing

fn digit(d: u8) -> u8
    requires { d < 16 }
    ensures { result ≡ digit_of d }
{
    if d < 10 { 48 + d } else { 87 + d }
}

fn put_pair(out: &mut [u8], at: usize, b: u8) -> usize
    requires { at + 2 ≤ length out.old }
    ensures { Wrote 2 out.old out.new at result (digits_of (b ∷ [])) }
{
    let p = print::put_byte(out, at, digit(b / 16));
    print::put_byte(out, p, digit(b % 16))
}

fn put_digits(out: &mut [u8], at: usize, src: &[u8]) -> usize
    requires { at + 2 * length src.now ≤ length out.old }
    ensures { Wrote (2 * length src.now)
        out.old out.new at result (digits_of src.now) }
{
    let mut p = at;
    for b in src {
        p = put_pair(out, p, *b);
    }
    p
}

// The bytes of src as hex.
pub fn put_hex(out: &mut [u8], at: usize, src: &[u8]) -> usize
    requires { at + (2 * length src.now + 1) ≤ length out.old }
    ensures { Wrote (2 * length src.now + 1)
        out.old out.new at result (hex_of src.now) }
{
    if src.len() == 0 {
        return print::put_byte(out, at, 45);
    }
    put_digits(out, at, src)
}

// ---- reading

// A capital digit as its small letter.
fn small(b: u8) -> u8
    ensures { result ≡ small_of b }
{
    if b < 65 {
        return b;
    }
    if b < 71 {
        return b + 32;
    }
    b
}

// What a digit stands for, or 16 where a byte is no digit.
// 16 and no Option: get_digits reckons with what all_digits has looked at.
fn small_value(b: u8) -> u8
    ensures { (result ≡ value_of b) × (result ≤ 16) }
{
    if b < 48 {
        return 16;
    }
    if b < 58 {
        return b - 48;
    }
    if b < 97 {
        return 16;
    }
    if b < 103 {
        return b - 87;
    }
    16
}

// The same in either case.
fn value(b: u8) -> u8
    ensures { (result ≡ value_of (small_of b)) × (result ≤ 16) }
{
    small_value(small(b))
}

fn all_digits(text: &[u8]) -> bool
    ensures { Tells result (Digits (smalls text.now)) }
{
    for b in text {
        if 15 < value(*b) {
            return false;
        }
    }
    true
}

// Two digits for each byte, and one byte at least.
fn is_paired(text: &[u8]) -> bool
    ensures { Tells result (Paired (smalls text.now)) }
{
    let n = text.len();
    if n == 0 {
        return false;
    }
    if n % 2 != 0 {
        return false;
    }
    all_digits(text)
}

fn is_no_bytes(text: &[u8]) -> bool
    ensures { Tells result (NoBytes (smalls text.now)) }
{
    text == b"-".as_slice()
}

fn get_digits(text: &[u8], out: &mut [u8])
    requires digits { Digits (smalls text.now) }
    requires text_len { length text.now ≡ 2 * length out.old }
    ensures { digits_of out.new ≡ smalls text.now }
{
    for i in 0..out.len() {
        let high = value(text[2 * i]);
        let low = value(text[2 * i + 1]);
        out[i] = high * 16 + low;
    }
}

// The bytes whose hex the text is go to the front of out, and how many they are is told; else it
// stays as it is.
pub fn read_hex(text: &[u8], out: &mut [u8]) -> Result<usize, HexError>
    ensures { HexIs text.now out.old result out.new }
{
    if is_no_bytes(text) {
        return Ok(0);
    }
    if !is_paired(text) {
        return Err(HexError::Bad);
    }
    let n = text.len() / 2;
    if out.len() < n {
        return Err(HexError::Long);
    }
    get_digits(text, &mut out[0..n]);
    Ok(n)
}

// Numbers as bytes, the least byte first, at any width up to 8.
#![tactic(auto)]

ghost use Rattle.std.specs.Prelude.{◌≡◌, ◌+◌, ◌≤◌, length};
ghost use Rattle.words.specs.Rows.{part, splice};
ghost use Rattle.le.specs.Le.{le, of_le, Number};

// Four bytes become x, with no loop: so the compiler makes one store of them.
fn put_four(dst: &mut [u8], x: u64)
    requires { length dst.old ≡ 4 }
    ensures { dst.new ≡ le 4 x }
{
    dst.copy_from_slice(&x.to_le_bytes()[..4]);
}

// Eight bytes become x.
fn put_eight(dst: &mut [u8], x: u64)
    requires { length dst.old ≡ 8 }
    ensures { dst.new ≡ le 8 x }
{
    dst.copy_from_slice(&x.to_le_bytes());
}

// Any number of bytes become x, the least first.
fn put_each(dst: &mut [u8], x: u64)
    ensures { dst.new ≡ le (length dst.old) x }
{
    let mut v = x;
    for byte in dst.iter_mut() {
        *byte = (v % 256) as u8;
        v = v / 256;
    }
}

// All of dst becomes x: as many of its bytes as there is room for, the least first. The two widths
// of the image are written at once, any other byte by byte.
pub fn put(dst: &mut [u8], x: u64)
    ensures { dst.new ≡ le (length dst.old) x }
{
    match dst.len() {
        8 => put_eight(dst, x),
        4 => put_four(dst, x),
        _ => put_each(dst, x),
    }
}

// The number that four bytes are, with no loop: so the compiler makes one load of them.
fn get_four(src: &[u8]) -> u64
    requires { length src.now ≡ 4 }
    ensures { result ≡ of_le src.now }
{
    let mut four = [0u8; 4];
    four.copy_from_slice(src);
    u64::from(u32::from_le_bytes(four))
}

// The number that eight bytes are.
fn get_eight(src: &[u8]) -> u64
    requires { length src.now ≡ 8 }
    ensures { result ≡ of_le src.now }
{
    let mut eight = [0u8; 8];
    eight.copy_from_slice(src);
    u64::from_le_bytes(eight)
}

// The number that at most eight bytes are: behind them zeros change nothing.
fn get_each(src: &[u8]) -> u64
    requires { length src.now ≤ 8 }
    ensures { result ≡ of_le src.now }
{
    let mut bytes = [0u8; 8];
    bytes[..src.len()].copy_from_slice(src);
    u64::from_le_bytes(bytes)
}

// The same: the two widths of the image at once, any other byte by byte.
fn get_any(src: &[u8]) -> u64
    requires { length src.now ≤ 8 }
    ensures { result ≡ of_le src.now }
{
    match src.len() {
        8 => get_eight(src),
        4 => get_four(src),
        _ => get_each(src),
    }
}

// The number that all of src is.
pub fn get(src: &[u8]) -> u64
    requires { length src.now ≤ 8 }
    ensures { Number (length src.now) src.now result }
{
    get_any(src)
}

// The k bytes of out at `at` become x.
pub fn put_at(out: &mut [u8], at: usize, k: usize, x: u64)
    requires { at + k ≤ length out.old }
    ensures { out.new ≡ splice out.old at k (le k x) }
{
    put(&mut out[at..at + k], x);
}

// The number that the k bytes of src at `at` are.
pub fn get_at(src: &[u8], at: usize, k: usize) -> u64
    requires { (at + k ≤ length src.now) × (k ≤ 8) }
    ensures { Number k (part src.now at k) result }
{
    get(&src[at..at + k])
}

// A line of two load lists, and its answer: two lists parted by a space, each `-` or its records
// `LEFT:RIGHT` parted by commas.
#![tactic(auto)]

ghost use Rattle.std.specs.Prelude.{◌≡◌, ◌+◌, ◌≤◌, length, take};
ghost use Rattle.scan.specs.Bytes.{index_of};
ghost use Rattle.print.specs.Text.{Wrote};
ghost use Rattle.lists.specs.Lists.{
  up_to,
  behind as rest_behind,
  number_in,
  record_from,
  record_in,
  is_none,
  RecordsRead,
  ListRead,
  compared,
  Weighed,
  list_text,
  which_text,
  said_text,
};

use longer::Which;

// Where the first byte b of s stands; its length where there is none.
fn place_of(s: &[u8], b: u8) -> usize
    ensures value { result ≡ index_of b s.now }
    ensures upper_bound { result ≤ length s.now }
{
    let n = s.len();
    scan::find(s, 0, n, b)
}

// What stands before the first b.
fn up_to(s: &[u8], b: u8) -> &[u8]
    ensures { result.now ≡ up_to b s.now }
{
    let n = s.len();
    let e = scan::find(s, 0, n, b);
    &s[0..e]
}

// What stands behind it, and nothing where there is none.
fn behind(s: &[u8], b: u8) -> &[u8]
    ensures { result.now ≡ rest_behind b s.now }
{
    let n = s.len();
    let e = scan::find(s, 0, n, b);
    if e < n {
        return &s[e + 1..n];
    }
    &s[0..0]
}

// The number that s is, by the rules of a trace; 0 where it is none, as a record of 0 is none.
fn number_in(s: &[u8]) -> u32
    ensures { result ≡ number_in s.now }
{
    lines::read_one(b"", s).unwrap_or(0)
}

fn record_from(left: u32, right: u32) -> u64
    ensures { result ≡ record_from left right }
{
    if (left == 0) | (right == 0) {
        return 0;
    }
    left as u64 * 4294967296 + right as u64
}

// The record that s is; 0 where it is none.
fn record_in(s: &[u8]) -> u64
    ensures { result ≡ record_in s.now }
{
    let left = number_in(up_to(s, 58));
    let right = number_in(behind(s, 58));
    record_from(left, right)
}

// A list's records go to the front of words.
fn read_records(s: &[u8], words: &mut [u64]) -> Option<usize>
    ensures { RecordsRead s.now words.old words.new result }
{
    let mut i = 0;
    for n in 0..words.len() {
        let t = &s[i..];
        let r = record_in(up_to(t, 44));
        if r == 0 {
            return None;
        }
        words[n] = r;
        let e = place_of(t, 44);
        if t.len() <= e {
            return Some(n + 1);
        }
        i += e + 1;
    }
    None
}

// `-`, the list that has no record.
fn is_none(s: &[u8]) -> bool
    ensures { result ≡ is_none s.now }
{
    s == b"-".as_slice()
}

// How many records a list has, where it can be read and there is room for them: they go to the
// front of words.
pub fn read_list(s: &[u8], words: &mut [u64]) -> Option<usize>
    ensures { ListRead s.now words.old words.new result }
{
    if is_none(s) {
        return Some(0);
    }
    read_records(s, words)
}

// The first n words, or all.
fn front(words: &[u64], n: usize) -> &[u64]
    ensures { result.now ≡ take n words.now }
{
    if n < words.len() {
        return &words[0..n];
    }
    words
}

// The records of both lists.
fn compare(x: Option<usize>, a: &[u64], y: Option<usize>, b: &[u64]) -> Option<Which>
    ensures { result ≡ compared x a.now y b.now }
{
    let n = x?;
    let m = y?;
    Some(longer::longer_is(front(a, n), front(b, m)))
}

// Which list of the line is the longer, where it can be read; a and b are work room for the
// records.
pub fn weigh(line: &[u8], a: &mut [u64], b: &mut [u64]) -> Option<Which>
    ensures { Weighed (length a.old) (length b.old) line.now
        (length a.new) (length b.new) result }
{
    let x = read_list(up_to(line, 32), a);
    let y = read_list(behind(line, 32), b);
    compare(x, a, y, b)
}

// A digit, the list, and the end of the line.
fn put_list(out: &mut [u8], digit: u8, list: &[u8]) -> usize
    requires { length list.now + 3 ≤ length out.old }
    ensures { Wrote (length list.now + 3) out.old out.new 0 result
        (list_text digit list.now) }
{
    let p = print::put_byte(out, 0, digit);
    let p = print::put_byte(out, p, 32);
    let p = print::put_bytes(out, p, list);
    print::put_byte(out, p, 10)
}

fn put_which(out: &mut [u8], line: &[u8], w: Which) -> usize
    requires { length line.now + 11 ≤ length out.old }
    ensures { Wrote (length line.now + 11) out.old out.new 0 result
        (which_text line.now w) }
{
    match w {
        Which::First => put_list(out, 49, up_to(line, 32)),
        Which::Second => put_list(out, 50, behind(line, 32)),
        Which::Differs => print::put_bytes(out, 0, b"refused 22\n"),
    }
}

// The answer to the line, at the front of out.
pub fn put_said(out: &mut [u8], line: &[u8], said: Option<Which>) -> usize
    requires { length line.now + 11 ≤ length out.old }
    ensures { Wrote (length line.now + 11) out.old out.new 0 result
        (said_text line.now said) }
{
    match said {
        Some(w) => put_which(out, line, w),
        None => print::put_bytes(out, 0, b"refused 11\n"),
    }
}

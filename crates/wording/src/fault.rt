// What is wrong with a line that cannot be read, where that is plain.
ghost use Rattle.std.specs.Prelude.{◌≡◌};
ghost use Rattle.rules.specs.Pick.{pick};
ghost use Rattle.wording.specs.Fault.{within, last_of, overspaced, fault_of};

use lines::starts;

#[derive(Clone, Copy)]
pub enum Fault {
    Unended,
    Empty,
    Mark,
    Return,
    Remark,
    Tab,
    Space,
    Long,
    Other,
}

fn choose(t: bool, a: Fault, b: Fault) -> Fault
    ensures { result ≡ pick t a b }
{
    if t { a } else { b }
}

// Whether the bytes of w stand somewhere in s.
fn has(w: &[u8], s: &[u8]) -> bool
    ensures { result ≡ within w.now s.now }
{
    for i in 0..s.len() {
        if starts(w, &s[i..]) {
            return true;
        }
    }
    false
}

// The last byte, 0 of an empty line.
fn last(s: &[u8]) -> u8
    ensures { result ≡ last_of s.now }
{
    let n = s.len();
    if n == 0 {
        return 0;
    }
    s[n - 1]
}

// A space in front, at the end, or after another.
fn is_overspaced(s: &[u8]) -> bool
    ensures { result ≡ overspaced s.now }
{
    starts(b" ", s) | (last(s) == 32) | has(b"  ", s)
}

// The first fault that applies, in the order of the enum. ended: a newline ends the line.
pub fn fault_of(line: &[u8], ended: bool) -> Fault
    ensures { result ≡ fault_of line.now ended }
{
    let f = choose(64 < line.len(), Fault::Long, Fault::Other);
    let f = choose(is_overspaced(line), Fault::Space, f);
    let f = choose(has(b"\t", line), Fault::Tab, f);
    let f = choose(starts(b"#", line), Fault::Remark, f);
    let f = choose(last(line) == 13, Fault::Return, f);
    let f = choose(starts(b"\xef\xbb\xbf", line), Fault::Mark, f);
    let f = choose(line.len() == 0, Fault::Empty, f);
    choose(!ended, Fault::Unended, f)
}

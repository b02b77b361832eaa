// One line under either names, read.
ghost use Rattle.std.specs.Prelude.{◌≡◌, ◌≤◌, length};
ghost use Rattle.lines.specs.Printed.{readable};
ghost use Rattle.trace.specs.Stops.{opens as opens_trace, plays as plays_on};
ghost use Rattle.renamed.specs.Names.{word_in};
ghost use Rattle.renamed.specs.Read.{read_in, found_by};

use crate::names;
use crate::names::{Found, Names};
use lines::Line;

// What a line of at most 64 bytes says whose word was found: it is read as ours, with our name.
fn read_as_ours(s: &[u8], found: Found, from: Names, to: Names) -> Line
    requires { (length s.now ≤ 64) × (found ≡ found_by from to (word_in from s.now)) }
    ensures { result ≡ read_in from s.now }
{
    if found.cut == 0 {
        return Line::Unreadable;
    }
    let w = found.word;
    let cut = found.cut;
    let mut t = [0u8; 72];
    let p = names::put_name(&mut t, 0, Names::Ours, w);
    let p = print::put_bytes(&mut t, p, &s[cut..]);
    lines::read_line(&t[..p])
}

// What a line says whose word was found.
pub(crate) fn read_found(s: &[u8], found: Found, from: Names, to: Names) -> Line
    requires { found ≡ found_by from to (word_in from s.now) }
    ensures { result ≡ read_in from s.now }
{
    if 64 < s.len() {
        return Line::Unreadable;
    }
    read_as_ours(s, found, from, to)
}

pub(crate) fn is_readable(l: Line) -> bool
    ensures { result ≡ readable l }
{
    match l {
        Line::Site(n, j, m) => true,
        Line::Call(c) => true,
        Line::Holds(c, k, left, right) => true,
        Line::Unreadable => false,
    }
}

// A site line.
pub(crate) fn opens(l: Line) -> bool
    ensures { result ≡ opens_trace l }
{
    match l {
        Line::Site(n, j, m) => true,
        Line::Call(c) => false,
        Line::Holds(c, k, left, right) => false,
        Line::Unreadable => false,
    }
}

// A call or a holds line.
pub(crate) fn plays(l: Line) -> bool
    ensures { result ≡ plays_on l }
{
    match l {
        Line::Site(n, j, m) => false,
        Line::Call(c) => true,
        Line::Holds(c, k, left, right) => true,
        Line::Unreadable => false,
    }
}

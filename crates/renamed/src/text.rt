// The lines of a trace under other names: how much room they take, and written.
ghost use Rattle.std.specs.Prelude.{◌≡◌, true, [], ◌∷◌, ◌++◌, ◌+◌, ◌≤◌, leb, length};
ghost use Rattle.rules.specs.Every.{each};
ghost use Rattle.lines.specs.Printed.{readable};
ghost use Rattle.print.specs.Text.{Wrote};
ghost use Rattle.renamed.specs.Read.{read_in, printed_in};
ghost use Rattle.renamed.specs.Trace.{lines_in, text_in};
ghost use Rattle.renamed.specs.Translate.{answer_number};

use crate::names;
use crate::names::Names;

// Why nothing is written: a line cannot be read, or has no name, or the buffer is too short.
#[derive(Clone, Copy)]
pub enum Refused {
    Unreadable,
    Unnamed,
    Short,
}

// 0 where so many bytes were written, else the refusal's number.
// No `From`: the pages name this function.
pub fn answer_number(a: Result<usize, Refused>) -> u32
    ensures { result ≡ answer_number a }
{
    match a {
        Ok(_) => 0,
        Err(Refused::Unreadable) => 11,
        Err(Refused::Unnamed) => 18,
        Err(Refused::Short) => 12,
    }
}

// How long a line is under the other names, with its newline.
fn line_length(s: &[u8], from: Names, to: Names) -> usize
    requires { readable (read_in from s.now) ≡ true }
    ensures { result ≡ length (printed_in to (read_in from s.now)) + 1 }
{
    let found = names::find(from, to, s);
    s.len() - found.cut + found.put + 1
}

// There is room for the lines.
// No `split` here and in put_lines: it gives one line more, behind the last newline.
pub(crate) fn has_room(s: &[u8], from: Names, to: Names, room: usize) -> bool
    requires { each readable (lines_in from s.now) ≡ true }
    ensures { result ≡ leb (length (text_in to (lines_in from s.now))) room }
{
    let n = s.len();
    let mut left = room;
    let mut i = 0;
    while i < n {
        let e = scan::find(s, i, n, 10);
        let k = line_length(&s[i..e], from, to);
        if left < k {
            return false;
        }
        left -= k;
        i = e + 1;
    }
    true
}

// A line under the other names, with its newline.
fn put_line(out: &mut [u8], at: usize, s: &[u8], from: Names, to: Names) -> usize
    requires { (readable (read_in from s.now) ≡ true)
        × (at + (length (printed_in to (read_in from s.now)) + 1) ≤ length out.old) }
    ensures { Wrote (length (printed_in to (read_in from s.now)) + 1)
        out.old out.new at result
        (printed_in to (read_in from s.now) ++ (10 ∷ [])) }
{
    let found = names::find(from, to, s);
    let w = found.word;
    let cut = found.cut;
    let p = names::put_name(out, at, to, w);
    let p = print::put_bytes(out, p, &s[cut..]);
    print::put_byte(out, p, 10)
}

// The lines under the other names, at the front of out.
pub(crate) fn put_lines(out: &mut [u8], s: &[u8], from: Names, to: Names) -> usize
    requires { (each readable (lines_in from s.now) ≡ true)
        × (length (text_in to (lines_in from s.now)) ≤ length out.old) }
    ensures { Wrote (length (text_in to (lines_in from s.now)))
        out.old out.new 0 result (text_in to (lines_in from s.now)) }
{
    let n = s.len();
    let mut p = 0;
    let mut i = 0;
    while i < n {
        let e = scan::find(s, i, n, 10);
        p = put_line(out, p, &s[i..e], from, to);
        i = e + 1;
    }
    p
}

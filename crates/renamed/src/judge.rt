// Lines looked at one after another: can they be read, do they have a name.
ghost use Rattle.std.specs.Prelude.{◌≡◌};
ghost use Rattle.renamed.specs.Read.{read_in, has_name};
ghost use Rattle.renamed.specs.Trace.{fits as fits_behind, lines_in};
ghost use Rattle.renamed.specs.Judge.{one_more, first_of, judged_by, judged_all};

use crate::names::Names;
use crate::{line, names};
use lines::Line;

// How many lines were looked at, and the number of the first that cannot be read, and of the first
// that has no name, where there is one.
#[derive(Clone, Copy)]
pub struct Judged {
    pub lines: u64,
    pub unreadable: Option<u64>,
    pub unnamed: Option<u64>,
}

// l can stand behind k lines.
fn fits(k: u64, l: Line) -> bool
    ensures { result ≡ fits_behind k l }
{
    let first = line::opens(l);
    let later = line::plays(l);
    if k == 0 {
        return first & (k < 4294967295);
    }
    later & (k < 4294967295)
}

fn one_more(k: u64) -> u64
    ensures { result ≡ one_more k }
{
    if k < 4294967296 {
        return k + 1;
    }
    k
}

fn first_of(a: Option<u64>, t: bool, k: u64) -> Option<u64>
    ensures { result ≡ first_of a t k }
{
    if a.is_none() & t {
        return Some(k);
    }
    a
}

// One line more; named: it has a name.
fn judge_line(j: Judged, l: Line, named: bool) -> Judged
    ensures { result ≡ judged_by named j l }
{
    let k = one_more(j.lines);
    let fit = fits(j.lines, l);
    let readable = line::is_readable(l);
    Judged {
        lines: k,
        unreadable: first_of(j.unreadable, !fit, k),
        unnamed: first_of(j.unnamed, readable & !named, k),
    }
}

// One line of text more.
fn judge_text(j: Judged, s: &[u8], from: Names, to: Names) -> Judged
    ensures { result ≡ judged_by (has_name to (read_in from s.now)) j
        (read_in from s.now) }
{
    let found = names::find(from, to, s);
    let l = line::read_found(s, found, from, to);
    judge_line(j, l, found.put != 0)
}

// The lines of s, behind those that were looked at.
// No `split`: it does not tell whether a newline ended the last piece.
pub fn judge(j: Judged, s: &[u8], from: Names, to: Names) -> Judged
    ensures { result ≡ judged_all to j (lines_in from s.now) }
{
    let n = s.len();
    let mut so_far = j;
    let mut i = 0;
    while i < n {
        let e = scan::find(s, i, n, 10);
        if n <= e {
            return judge_line(so_far, Line::Unreadable, false);
        }
        so_far = judge_text(so_far, &s[i..e], from, to);
        i = e + 1;
    }
    so_far
}

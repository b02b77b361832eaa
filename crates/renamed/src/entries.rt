// Whole traces in lent buffers: any bytes, any buffer.
ghost use Rattle.renamed.specs.Translate.{Translated};
ghost use Rattle.renamed.specs.declared.names.Names.{Names as Kinds};

use crate::judge::Judged;
use crate::names::Names;
use crate::text::Refused;
use crate::{judge, text};

// The lines of s, which stand behind so many others of their trace, under other names. A refusal
// leaves out.
pub fn translate(
    s: &[u8],
    lines: u64,
    from: Names,
    to: Names,
    out: &mut [u8],
) -> Result<usize, Refused>
    ensures { Translated from to lines s.now out.old out.new result }
{
    let begun = Judged {
        lines: lines,
        unreadable: None,
        unnamed: None,
    };
    let j = judge::judge(begun, s, from, to);
    if j.unreadable.is_some() {
        return Err(Refused::Unreadable);
    }
    if j.unnamed.is_some() {
        return Err(Refused::Unnamed);
    }
    if !text::has_room(s, from, to, out.len()) {
        return Err(Refused::Short);
    }
    Ok(text::put_lines(out, s, from, to))
}

// Our trace under the published names.
pub fn publish(s: &[u8], out: &mut [u8]) -> Result<usize, Refused>
    ensures { Translated Kinds.Ours Kinds.Published 0
        s.now out.old out.new result }
{
    translate(s, 0, Names::Ours, Names::Published, out)
}

// A published trace under our names.
pub fn unpublish(s: &[u8], out: &mut [u8]) -> Result<usize, Refused>
    ensures { Translated Kinds.Published Kinds.Ours 0
        s.now out.old out.new result }
{
    translate(s, 0, Names::Published, Names::Ours, out)
}

// One line: its answer goes to standard output, and why it is refused to standard error.
ghost use Rattle.std.specs.Prelude.{◌≤◌, length};
ghost use Rattle.image.specs.Longest.{longest_of_all};
ghost use Rattle.answer.specs.Ample.{TooLong};
ghost use Rattle.answer.specs.Hold.{held_for};
ghost use Rattle.apply.specs.Room.{Room, cut_at};

use crate::refused;
use by_lines::{Answered, Answers, End};
use std::io::Result;
use streams::Streams;
use wording::number;

// What is lent to a line's answer. last: there are no larger buffers.
#[derive(Drop)]
pub(crate) struct Lent<'a> {
    pub(crate) last: bool,
    pub(crate) image: &'a mut [u8],
    pub(crate) site: &'a mut [u64],
    pub(crate) links: &'a mut [u64],
    pub(crate) out: &'a mut [u8],
}

fn tell<S: Streams>(rt: &S, line: &[u8], answer: &[u8], k: u64) -> Result<Answered> {
    streams::write_output(rt, answer)?;
    if !lines::starts(b"refused", answer) {
        return Ok(Answered::Done);
    }
    refused::say_refused(rt, line, number::code(answer), k);
    Ok(Answered::Refused)
}

// A line whose image is longer than any site's: the rules say 1.
fn refuse_image<S: Streams>(rt: &S, line: &[u8], k: u64) -> Result<Answered>
    requires { TooLong line.now }
{
    streams::write_output(rt, b"refused 1\n")?;
    refused::say_long_line(rt, line, 1, k);
    Ok(Answered::Refused)
}

// A line that is longer than any with a site's image: it is not read further.
fn refuse_long<S: Streams>(rt: &S, line: &[u8], k: u64) -> Result<Answered>
    requires { held_for longest_of_all ≤ length line.now }
{
    streams::write_output(rt, b"refused 11\n")?;
    refused::say_long_line(rt, line, 11, k);
    Ok(Answered::Refused)
}

// The last bytes of the input are no line where no newline ended them.
fn refuse_unended<S: Streams>(rt: &S, line: &[u8], k: u64) -> Result<Answered> {
    streams::write_output(rt, b"refused 11\n")?;
    refused::say_unreadable(rt, line, false, k);
    Ok(Answered::Refused)
}

fn answer_line<S: Streams>(
    rt: &S,
    line: &[u8],
    k: u64,
    last: bool,
    image: &mut [u8],
    site: &mut [u64],
    links: &mut [u64],
    out: &mut [u8],
) -> Result<Answered>
    requires { Room last (length image.old) (length site.old) (length links.old)
        (length out.old) }
{
    match answer::answer(line, image, site, links, out) {
        Some(n) => tell(rt, line, &out[..n.min(out.len())], k),
        None => {
            if last {
                return refuse_image(rt, line, k);
            }
            Ok(Answered::Larger)
        }
    }
}

impl<'a, S: Streams> Answers<S> for Lent<'a> {
    ghost fits = { λ l. Room l.last (length l.image.now) (length l.site.now) (length l.links.now)
        (length l.out.now) };

    ghost cut_from = { λ l. cut_at l.last };

    fn answer(&mut self, rt: &S, line: &[u8], number: u64, end: End) -> Result<Answered> {
        match end {
            End::Newline => answer_line(
                rt, line, number, self.last, self.image, self.site, self.links, self.out,
            ),
            End::Input => refuse_unended(rt, line, number),
            End::Buffer => {
                if self.last {
                    return refuse_long(rt, line, number);
                }
                Ok(Answered::Larger)
            }
        }
    }
}

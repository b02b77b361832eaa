// One line: its answer goes to standard output, and why it is refused to standard error.
use crate::refused;
use by_lines::{Answered, Answers, End};
use longer::Which;
use std::io::Result;
use streams::Streams;

// Work room: for the records of both lists, and for an answer.
#[derive(Drop)]
pub(crate) struct Room<'a> {
    pub(crate) a: &'a mut [u64],
    pub(crate) b: &'a mut [u64],
    pub(crate) out: &'a mut [u8],
}

// Why line k is refused, where it is.
fn say_refused<S: Streams>(rt: &S, line: &[u8], said: Option<Which>, k: u64) -> Answered {
    match said {
        Some(Which::Differs) => refused::say_differs(rt, line, k),
        Some(_) => return Answered::Done,
        None => refused::say_unreadable(rt, line, true, k),
    }
    Answered::Refused
}

// A line that is longer than any that can be read, or that no newline ended.
fn refuse<S: Streams>(rt: &S, line: &[u8], ended: bool, k: u64) -> Result<Answered> {
    streams::write_output(rt, b"refused 11\n")?;
    refused::say_unreadable(rt, line, ended, k);
    Ok(Answered::Refused)
}

fn answer_line<S: Streams>(
    rt: &S,
    line: &[u8],
    k: u64,
    a: &mut [u64],
    b: &mut [u64],
    out: &mut [u8],
) -> Result<Answered> {
    if out.len() < 11 || out.len() - 11 < line.len() {
        return refuse(rt, line, true, k);
    }
    let said = lists::weigh(line, a, b);
    let n = lists::put_said(out, line, said).min(out.len());
    streams::write_output(rt, &out[..n])?;
    Ok(say_refused(rt, line, said, k))
}

impl<'a, S: Streams> Answers<S> for Room<'a> {
    fn answer(&mut self, rt: &S, line: &[u8], number: u64, end: End) -> Result<Answered> {
        match end {
            End::Newline => answer_line(rt, line, number, self.a, self.b, self.out),
            End::Buffer => refuse(rt, line, true, number),
            End::Input => refuse(rt, line, false, number),
        }
    }
}

// A body read from its front on, and its fields in words, a line for each.
ghost use Rattle.std.specs.Prelude.{◌≤◌, length};

use std::fmt;
use std::io::{Result, Write};

// What is left of a body. A field that would lie outside it reads as 0; in an image by form there
// is none.
#[derive(Clone, Copy)]
pub struct Body<'a> {
    rest: &'a [u8],
}

impl<'a> Body<'a> {
    pub(crate) fn of(bytes: &'a [u8]) -> Body<'a> {
        Body { rest: bytes }
    }

    // The next n bytes, or those that are left.
    fn take(&mut self, n: usize) -> &'a [u8]
        ensures { length result.now ≤ n }
    {
        let (front, rest) = self.rest.split_at(n.min(self.rest.len()));
        self.rest = rest;
        front
    }

    pub(crate) fn number(&mut self) -> u64 {
        let front = self.take(4);
        if front.len() < 4 {
            return 0;
        }
        le::get(front)
    }

    pub(crate) fn record(&mut self) -> Record {
        let front = self.take(8);
        if front.len() < 8 {
            return Record(0);
        }
        Record(le::get(front))
    }

    // So many records, the first of them load number `first`, go to `to`.
    pub(crate) fn put_records<W: Write>(
        &mut self,
        to: &mut W,
        first: u64,
        count: u64,
    ) -> Result<()> {
        for i in 0..count {
            let k = first.wrapping_add(i);
            let record = self.record();
            write!(to, "record {k}: {record}\n")?;
        }
        Ok(())
    }
}

// A record: its left and its right frame, or none.
#[derive(Clone, Copy)]
pub struct Record(u64);

impl fmt::Display for Record {
    fn fmt<W: fmt::Write>(&self, f: &mut fmt::Formatter<W>) -> fmt::Result {
        let left = self.0 / 4294967296;
        let right = self.0 % 4294967296;
        if self.0 == 0 {
            return write!(f, "none");
        }
        write!(f, "{left} {right}")
    }
}

// The boxes of a set, or none.
#[derive(Clone, Copy)]
pub struct Boxes(pub u64);

impl fmt::Display for Boxes {
    fn fmt<W: fmt::Write>(&self, f: &mut fmt::Formatter<W>) -> fmt::Result {
        if self.0 == 0 {
            return write!(f, " none");
        }
        let mut rest = self.0;
        for k in 1..6 {
            if rest % 2 == 1 {
                write!(f, " {k}")?;
            }
            rest = rest / 2;
        }
        Ok(())
    }
}

// Where a body of a stored image begins, and its length: Q-7's reader for C.
ghost use Rattle.std.specs.Prelude.{◌≡◌};
ghost use Rattle.bodies.specs.Contents.{named as named_in};
ghost use Rattle.journal.specs.Bodies.{part_then, BodyAnswered, NamedAnswered};

use crate::answered::{number_of, or_before};
use bodies::Part;
use rules::model::Refusal;

// What was lent, where the call is refused.
fn part_then(is: Result<Part, Refusal>, begin: usize, long: usize) -> Part
    ensures { result ≡ part_then is begin long }
{
    or_before(is, Part { begin, long })
}

pub fn journal_body(image: &[u8], begin: &mut usize, length: &mut usize, k: u32) -> u32
    ensures { BodyAnswered image.now k begin.old begin.new
        length.old length.new result }
{
    let is = bodies::body(image, k);
    let part = part_then(is, *begin, *length);
    *begin = part.begin;
    *length = part.long;
    number_of(is)
}

pub fn journal_named(image: &[u8], begin: &mut usize, length: &mut usize, k: u32) -> u32
    ensures { NamedAnswered (named_in image.now k) begin.old begin.new
        length.old length.new result }
{
    let is = bodies::contents::named(image, k);
    let part = part_then(is, *begin, *length);
    *begin = part.begin;
    *length = part.long;
    number_of(is)
}

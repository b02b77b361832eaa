// Where a body of a stored image begins, and its length: Q-7's reader for C.
ghost use Rattle.bodies.specs.Contents.{named as named_in};
ghost use Rattle.journal.specs.Bodies.{BodyAnswered, NamedAnswered};

#[unsafe(no_mangle)]
pub extern "C" fn journal_body(image: &[u8], begin: &mut usize, length: &mut usize, k: u32) -> u32
    ensures { BodyAnswered image.now k begin.old begin.new
        length.old length.new result }
{
    journal::journal_body(image, begin, length, k)
}

#[unsafe(no_mangle)]
pub extern "C" fn journal_named(image: &[u8], begin: &mut usize, length: &mut usize, k: u32) -> u32
    ensures { NamedAnswered (named_in image.now k) begin.old begin.new
        length.old length.new result }
{
    journal::journal_named(image, begin, length, k)
}

// The buffers: for a line, its lists' records and its answer.
use crate::answer::Room;
use streams::{Status, Streams, buffer};

// A list of as many records as a book can have.
const RECORDS: usize = 4096;

// The longest line of two such lists, each record of 21 bytes and a comma, and one byte more, which
// a longer line fills.
const LINE: usize = 2 * 22 * RECORDS;

const OUT: usize = LINE + 11;

pub(crate) fn serve<S: Streams>(rt: &S) -> Status {
    let mut piece = io::large_buffer();
    let mut line = buffer::bytes::<LINE>();
    let mut out = buffer::bytes::<OUT>();
    let mut a = buffer::words::<RECORDS>();
    let mut b = buffer::words::<RECORDS>();
    let mut room = Room {
        a: &mut a,
        b: &mut b,
        out: &mut out,
    };
    by_lines::serve(rt, b"longer", &mut piece, &mut line, &mut room)
}

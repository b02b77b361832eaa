// Room for an image of at most 65,536 bytes, for its hex with two bytes more, which a longer one
// fills, and for its block.
use crate::answer::Room;
use crate::whole_input;
use streams::{Status, Streams, buffer};

const IMAGE: usize = 65536;

const LINE: usize = 2 * IMAGE + 2;

const OUT: usize = salvage::MOST_TEXT;

fn serve_lines<S: Streams>(rt: &S, line: &mut [u8], image: &mut [u8], out: &mut [u8]) -> Status {
    let mut piece = io::large_buffer();
    let mut room = Room { image, out };
    by_lines::serve(rt, b"salvage", &mut piece, line, &mut room)
}

// `hex`: lines of images; else one image.
pub(crate) fn serve<S: Streams>(rt: &S) -> Status {
    let mut line = buffer::bytes::<LINE>();
    let mut image = buffer::bytes::<IMAGE>();
    let mut out = buffer::bytes::<OUT>();
    if streams::has_argument(rt, 2, b"hex") {
        return serve_lines(rt, &mut line, &mut image, &mut out);
    }
    whole_input::serve(rt, &mut line, &mut image, &mut out)
}

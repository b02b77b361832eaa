// Two sets of buffers, each for an image and for its hex with two bytes more, which a longer one
// fills: one for images of 128 KiB, and one for every image of a site, which is entered only where
// the first does not do.
use crate::{each_line, whole_input};
use by_lines::Run;
use streams::{Status, Streams, buffer};

const IMAGE: usize = 131072;

const TEXT: usize = 2 * IMAGE + 2;

const FULL_BOXES: usize = 5 * (4 * row::BEST + 28 + 4 * 5 + 8 * 4096);

const FULL_LINKS: usize = 5 * 4 * (4 + 16 * (24 + 8 * 4096));

const LONGEST: usize = 60 + image::GENERAL_BYTES + FULL_BOXES + FULL_LINKS;

// A newline may end the hex.
const LINE: usize = 2 * LONGEST + 2;

// What goes on in the larger set: the lines of the input, or the one image.
#[derive(Clone, Copy)]
pub enum Job {
    Lines(Run),
    Image,
}

// front: what is there of the line, or of the image; rest: the rest of the piece, or what is asked.
// Lines and images enter here alike: a compiler that merges the frame of a function that is called
// once into its caller's does not merge this one.
pub(crate) fn serve_large<S: Streams>(rt: &S, job: Job, front: &[u8], rest: &[u8]) -> Status {
    let mut line = buffer::bytes::<LINE>();
    let mut image = buffer::bytes::<LONGEST>();
    match job {
        Job::Lines(run) => each_line::serve_rest(rt, run, front, rest, &mut line, &mut image),
        Job::Image => whole_input::show_rest(rt, front, rest, &mut line, &mut image),
    }
}

pub(crate) fn serve<S: Streams>(rt: &S) -> Status {
    let mut line = [0u8; TEXT];
    let mut image = [0u8; IMAGE];
    if streams::has_argument(rt, 2, b"hex") {
        return each_line::serve(rt, &mut line, &mut image);
    }
    whole_input::serve_image(rt, &mut line, &mut image)
}

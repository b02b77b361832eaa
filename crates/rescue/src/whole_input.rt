// The whole input as one image, in raw bytes or in hex.
use crate::answer;
use by_lines::{Answered, whole};
use std::io::Result;
use streams::{Status, Streams};

fn tell<S: Streams>(rt: &S, input: &[u8], image: &mut [u8], out: &mut [u8]) -> Result<Answered> {
    if whole::is_hex(input) {
        return answer::tell_hex(rt, whole::line_of(input), image, out);
    }
    answer::tell(rt, input, out)
}

// The one image was answered.
fn status<S: Streams>(rt: &S, told: Result<Answered>) -> Status {
    match told {
        Ok(Answered::Refused) => {
            wording::say(
                rt,
                b"salvage",
                b"refused 17: no image of at most 65,536 bytes with a sound table of contents",
            );
            Status::Refused
        }
        Ok(_) => Status::Done,
        Err(error) => {
            streams::fail(rt, b"salvage: standard output", error);
            Status::Failed
        }
    }
}

// An input that fills its buffer is longer than any image.
pub(crate) fn serve<S: Streams>(
    rt: &S,
    input: &mut [u8],
    image: &mut [u8],
    out: &mut [u8],
) -> Status {
    match whole::fill(rt, input, 0) {
        Ok(Some(n)) => status(rt, tell(rt, &input[..n], image, out)),
        Ok(None) => status(rt, answer::refused(rt)),
        Err(error) => {
            streams::fail(rt, b"salvage: standard input", error);
            Status::Failed
        }
    }
}

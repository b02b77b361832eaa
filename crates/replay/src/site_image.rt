// The image of the site after the last line.
use std::io::Result;
use streams::{Status, Streams};

const IMAGE: &str = "/proc/self/fd/4";

// It is opened before the trace is read: the reader of a pipe may be gone at the end.
pub(crate) fn open<S: Streams>(rt: &S) -> Result<S::File> {
    streams::open_to_write(rt, IMAGE)
}

fn send<S: Streams>(rt: &S, to: Result<S::File>, image: &[u8]) -> Result<()> {
    let mut file = to?;
    streams::send(rt, &mut file, image)
}

// The longest image of a replay, n 5, J 32, L 8 (`longest_of_traces`), has room in out: so only
// words
// that hold no site are refused. Gives the status.
pub(crate) fn send_image<S: Streams>(
    rt: &S,
    to: Result<S::File>,
    site: &[u64],
    links: &[u64],
    out: &mut [u8],
) -> Status {
    match writer::write(site, links, out) {
        Ok(n) => {
            if let Err(error) = send(rt, to, &out[..n]) {
                streams::fail(rt, b"replay: the image", error);
                return Status::Failed;
            }
            Status::Done
        }
        Err(_) => {
            wording::say(rt, b"replay", b"a trace without a line has no site");
            Status::Refused
        }
    }
}

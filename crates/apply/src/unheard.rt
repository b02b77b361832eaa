// Which boxes have not answered a lease, of a raw image: their numbers, a line for each.
ghost use Rattle.std.specs.Prelude.{◌≡◌, length};
ghost use Rattle.answer.specs.Ample.{Ample};
ghost use Rattle.apply.specs.Room.{OnLarger};

use crate::raw;
use crate::raw::Done;
use answer::unheard;
use by_lines::whole;
use rules::model::{Answer, Refusal};
use streams::{Status, Streams};

fn tell_boxes<S: Streams>(rt: &S, set: u32, text: &[u8]) -> Status {
    let mut out = [0u8; 10];
    let n = unheard::put_boxes(&mut out, set);
    raw::tell(rt, Answer::Done, &out[0..n], text)
}

fn tell<S: Streams>(rt: &S, u: Result<u32, Refusal>, text: &[u8]) -> Status {
    match u {
        Ok(set) => tell_boxes(rt, set, text),
        Err(why) => raw::tell(rt, Answer::Refused(why), b"", text),
    }
}

// What is said, by an image of n bytes.
fn come<S: Streams>(rt: &S, s: Option<Result<u32, Refusal>>, n: usize, text: &[u8]) -> Done
    ensures { OnLarger (λ k. (k ≡ n) × (s ≡ None)) result }
{
    match s {
        Some(u) => Done::Status(tell(rt, u, text)),
        None => Done::Larger(n),
    }
}

// Of the image of standard input, of which there are n bytes already.
pub(crate) fn ask_of_input<S: Streams>(
    rt: &S,
    c: u32,
    n: usize,
    text: &[u8],
    image: &mut [u8],
    site: &mut [u64],
    links: &mut [u64],
) -> Done
    ensures { OnLarger (λ k. Ample (length image.old) (length site.old)
        (length links.old) → k ≡ length image.old) result }
{
    match whole::fill(rt, image, n) {
        Ok(Some(k)) => {
            let s = unheard::unheard_on_image(c, &image[0..k], site, links);
            come(rt, s, k, text)
        }
        Ok(None) => Done::Larger(image.len()),
        Err(error) => raw::failed(rt, error),
    }
}

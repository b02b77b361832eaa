// A stored image and what is asked of it, as a line of text: the image in hex and a call or a
// run, answered by a line with the answer and the image after it; or which load has a frame,
// answered by its number.
#![tactic(auto)]

ghost use Rattle.std.specs.Prelude.{◌≡◌, ◌≤◌, length, take};
ghost use Rattle.answer.specs.Says.{lends as lends_enough, text_room, CallTold, AnswerIs};

use ask::Asked;
use reply::Ask;
use rules::model::{Answer, Refusal};

pub mod ask;
pub mod call;
pub mod hold;
pub mod reply;
mod serve;
pub mod tell;
pub mod unheard;

// There is room in out for an answer with any image that the buffer for images has room for.
fn lends(image: &[u8], out: &[u8]) -> bool
    ensures { result ≡ lends_enough (length image.now) (length out.now) }
{
    let k = out.len();
    if k < 52 {
        return false;
    }
    image.len() <= (k - 52) / 2
}

// What l asks of the image in the first n bytes of the buffer, told.
fn answer_call(
    l: Ask,
    n: usize,
    image: &mut [u8],
    site: &mut [u64],
    links: &mut [u64],
    out: &mut [u8],
) -> Option<usize>
    requires n_in_bounds { n ≤ length image.old }
    requires image_in_bounds { text_room (length image.old) ≤ length out.old }
    ensures { CallTold l (take n image.old) (length image.old)
        site.old links.old out.old result out.new }
{
    let c = call::call_on_image(l, n, image, site, links);
    tell::tell(c, image, out)
}

// The answer to a line, without the newline that ended it, goes to the front of out; its image,
// the site's words and its links are work room.
pub fn answer(
    line: &[u8],
    image: &mut [u8],
    site: &mut [u64],
    links: &mut [u64],
    out: &mut [u8],
) -> Option<usize>
    ensures { AnswerIs line.now (length image.old) site.old
        links.old out.old result out.new }
{
    if !lends(image, out) {
        return None;
    }
    let a = ask::ask(line, image);
    match a {
        Asked::Step(n, l) => answer_call(l, n, image, site, links, out),
        Asked::Long => None,
        Asked::Unreadable => Some(tell::put_refusal(out, Answer::Refused(Refusal::Line))),
    }
}

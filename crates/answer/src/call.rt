// What is asked of an image that stands in a lent buffer, and the image of a fresh site.
ghost use Rattle.std.specs.Prelude.{◌≡◌, true, ◌≤◌, length, take};
ghost use Rattle.memory.specs.Memory.{site_of, memory_form};
ghost use Rattle.image.specs.Image.{image_of};
ghost use Rattle.answer.specs.Replies.{served, outcome_of};
ghost use Rattle.answer.specs.Calls.{CallIs, FreshIs, PutIs};

use crate::reply::{Ask, Reply};
use crate::{ask, reply, serve};
use rules::model::{Answer, Refusal};
use rules::numbers;

// The image of words by form, after the answer a, goes to the front of the buffer. What comes of a
// call is the answer and how many bytes the image after it has; nothing where what was lent is too
// short.
fn put(a: Reply, image: &mut [u8], site: &[u64], links: &[u64]) -> Option<(Reply, usize)>
    requires { memory_form site.now links.now ≡ true }
    ensures { PutIs a (image_of (site_of site.now links.now))
        image.old result image.new }
{
    let w = writer::write_formed(site, links, image);
    match w {
        Ok(n) => Some((a, n)),
        Err(_) => None,
    }
}

// What l asks of words by form, whose image stands in the first n bytes of the buffer.
fn call_formed(
    l: Ask,
    n: usize,
    image: &mut [u8],
    site: &mut [u64],
    links: &mut [u64],
) -> Option<(Reply, usize)>
    requires links_value { memory_form site.old links.old ≡ true }
    requires n_in_bounds { n ≤ length image.old }
    requires links_value_2 { image_of (site_of site.old links.old) ≡ take n image.old }
    ensures { PutIs (outcome_of (site_of site.old links.old) l).answer
        (image_of (outcome_of (site_of site.old links.old) l).next)
        image.old result image.new }
{
    let a = serve::serve(site, links, l);
    if reply::is_unchanged(a) {
        return Some((a, n));
    }
    put(a, image, site, links)
}

// The image is read into the words: 1, else 12 as a short room, else l is done.
fn call_served(
    l: Ask,
    n: usize,
    image: &mut [u8],
    site: &mut [u64],
    links: &mut [u64],
) -> Option<(Reply, usize)>
    requires l_value { served l ≡ true }
    requires n_in_bounds { n ≤ length image.old }
    ensures { CallIs l n site.old links.old
        image.old result image.new }
{
    let a = reader::read(&image[0..n], site, links);
    let k = numbers::answer_number(a);
    if k == 0 {
        return call_formed(l, n, image, site, links);
    }
    if k == 12 {
        return None;
    }
    Some((Reply::Answer(Answer::Refused(Refusal::Form)), n))
}

// What l asks of the image in the first n bytes of the buffer; the image after it goes to the
// buffer's front. The words are work room.
pub fn call_on_image(
    l: Ask,
    n: usize,
    image: &mut [u8],
    site: &mut [u64],
    links: &mut [u64],
) -> Option<(Reply, usize)>
    ensures { CallIs l n site.old links.old
        image.old result image.new }
{
    if image.len() < n {
        return None;
    }
    if !ask::serves(l) {
        return Some((Reply::Answer(Answer::Refused(Refusal::Line)), n));
    }
    call_served(l, n, image, site, links)
}

// The image of a fresh site of these sizes goes to the buffer's front. The words are work room.
pub fn fresh_image(
    n: u32,
    j: u32,
    l: u32,
    image: &mut [u8],
    site: &mut [u64],
    links: &mut [u64],
) -> Option<(Reply, usize)>
    ensures { FreshIs n j l site.old links.old
        image.old result image.new }
{
    let a = site::fresh(site, links, n, j, l);
    let k = numbers::answer_number(a);
    if k == 0 {
        return put(Reply::Answer(a), image, site, links);
    }
    if k == 12 {
        return None;
    }
    Some((Reply::Answer(a), 0))
}

// Which present boxes have not answered the lease of a box, by an image.
ghost use Rattle.std.specs.Prelude.{◌+◌, ◌≤◌, ◌<◌, length};
ghost use Rattle.print.specs.Text.{Wrote};
ghost use Rattle.answer.specs.Unheard.{UnheardIs, box_line, boxes_text};

use rules::model::Refusal;
use rules::{numbers, sets};

// What is said, if the words that were lent are enough. They are work room.
pub fn unheard_on_image(
    c: u32,
    image: &[u8],
    site: &mut [u64],
    links: &mut [u64],
) -> Option<Result<u32, Refusal>>
    ensures { UnheardIs c image.now site.old links.old result }
{
    let a = reader::read(image, site, links);
    let k = numbers::answer_number(a);
    if k == 0 {
        return Some(site::unheard_formed(site, links, c));
    }
    if k == 12 {
        return None;
    }
    Some(Err(Refusal::Form))
}

fn put_box(out: &mut [u8], at: usize, set: u32, k: u32) -> usize
    requires at_in_bounds { at + 2 ≤ length out.old }
    requires k_bound { k < 10 }
    ensures { Wrote 2 out.old out.new at result (box_line set k) }
{
    if !sets::includes_all(set, sets::bit_of(k)) {
        return at;
    }
    let p = print::put_byte(out, at, (48 + k) as u8);
    print::put_byte(out, p, 10)
}

// The numbers of the boxes of a set, a line for each, at the front of out.
pub fn put_boxes(out: &mut [u8], set: u32) -> usize
    requires { 10 ≤ length out.old }
    ensures { Wrote 10 out.old out.new 0 result (boxes_text set) }
{
    let p = put_box(out, 0, set, 1);
    let p = put_box(out, p, set, 2);
    let p = put_box(out, p, set, 3);
    let p = put_box(out, p, set, 4);
    put_box(out, p, set, 5)
}

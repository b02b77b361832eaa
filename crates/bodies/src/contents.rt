// What a table of contents names, in any bytes: nothing is read outside them, and the image is not
// looked at again.
ghost use Rattle.std.specs.Prelude.{◌≡◌, true, ◌+◌, ◌*◌, ◌≤◌, ◌<◌, length};
ghost use Rattle.image.specs.Longest.{table_bytes};
ghost use Rattle.bodies.specs.Contents.{
  table_number,
  is_number,
  named as named_in,
  asked as asked_in,
  after as after_in,
};
ghost use Rattle.bodies.specs.Handed.{Handed, Opened};

use crate::Part;
use rules::model::Refusal;
use words::size;

// Number i of the table, counted from 0.
pub fn table_number(image: &[u8], i: usize) -> usize
    requires { (4 * i + 4 ≤ length image.now) × (i < 16) }
    ensures { (result ≡ table_number image.now i) × (result < 4294967296) }
{
    size(le::get_at(image, 4 * i, 4))
}

// The entry of body k, which stands in the table.
fn entry(image: &[u8], k: usize) -> Result<Part, Refusal>
    requires { (is_number k ≡ true) × (table_bytes k ≤ length image.now) }
    ensures { result ≡ named_in image.now k }
{
    let count = table_number(image, 0);
    let begin = table_number(image, 2 * k - 1);
    let long = table_number(image, 2 * k);
    if (k <= count) & (begin + long <= image.len()) {
        return Ok(Part { begin, long });
    }
    Err(Refusal::Condition)
}

// What the table names for body k: 3 where k is no body's number, or nothing inside the bytes.
pub fn named(image: &[u8], k: u32) -> Result<Part, Refusal>
    ensures { result ≡ named_in image.now k }
{
    if (1 <= k) & (k <= 7) {
        let b = k as usize;
        if image::table_bytes(b) <= image.len() {
            return entry(image, b);
        }
    }
    Err(Refusal::Condition)
}

// Body k itself, no copy of it; none where the table names none.
pub fn part<'a>(image: &'a [u8], k: u32) -> &'a [u8]
    ensures { Handed image.entry (named_in image.now k) result }
{
    let is = named(image, k);
    match is {
        Ok(part) => &image[part.begin..part.begin + part.long],
        Err(_) => &image[0..0],
    }
}

// What a reader answers at place k: 1 at place 0, where the image is not by form; 3 after the last
// body.
pub fn asked(image: &[u8], k: u32) -> Result<Part, Refusal>
    ensures { result ≡ asked_in image.now k }
{
    if k == 0 {
        return Err(Refusal::Form);
    }
    named(image, k)
}

// The place after k: the next body's, or k itself where there is no body.
pub fn after(image: &[u8], k: u32) -> u32
    ensures { result ≡ after_in image.now k }
{
    let is = named(image, k);
    match is {
        Ok(_) => k + 1,
        Err(_) => k,
    }
}

// The place at which a reader of the image begins: body 1, or 0 where it is not by form.
pub fn first(image: &[u8]) -> u32
    ensures { Opened image.now result }
{
    let r = whole::check_image(image);
    match r {
        Some(_) => 1,
        None => 0,
    }
}

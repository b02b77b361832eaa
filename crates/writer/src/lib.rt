// The writer of the site image: its length first, then every byte straight into the lent buffer,
// each body's entry in the table of contents when the body is written.
#![tactic(auto)]

ghost use Rattle.std.specs.Prelude.{◌≡◌, true, [], ◌∷◌, ◌+◌, ◌≤◌, length};
ghost use Rattle.words.specs.Rows.{part};
ghost use Rattle.memory.specs.Memory.{memory_form, general_words};
ghost use Rattle.cells.specs.Cells.{cells, Room, Wrote};
ghost use Rattle.writer.specs.Bodies.{Space, Entered};
ghost use Rattle.writer.specs.Writer.{image, Formed, Measured, LengthIs, WriteIs};

use rules::model::{Refusal, Setting};
use words::word;

mod boxes;
mod entry;
mod mail;

// What has to be known of a site before its first byte is written: its sizes, and how long the
// whole image is.
#[derive(Clone, Copy)]
pub struct Extent {
    pub setting: Setting,
    pub total: usize,
}

// The one look at the site's lengths.
fn measure(site: &[u64], links: &[u64]) -> Extent
    requires { memory_form site.now links.now ≡ true }
    ensures { Measured site.now links.now result }
{
    let s = memory::setting_of(site, 0);
    let table = image::table_bytes(s.n as usize + 2);
    let boxes = boxes::boxes_length(site, s);
    let mail = mail::links_length(links, s);
    Extent {
        setting: s,
        total: table + image::GENERAL_BYTES + boxes + mail,
    }
}

// The general body at `at`, its entry at k.
fn write_general(out: &mut [u8], k: usize, at: usize, site: &[u64]) -> usize
    requires general_words_in_bounds { general_words ≤ length site.now }
    requires space { Space (cells 4 (part site.now 0 general_words) ∷ []) out.old k at }
    ensures { Entered (cells 4 (part site.now 0 general_words) ∷ [])
        out.old k at out.new result }
{
    let end = cells::put_words(out, at, 4, &site[0..memory::GENERAL]);
    entry::enter(out, k, at, end);
    end
}

// The image of a site by form whose setting is s, to the front of `out`.
fn write_image(out: &mut [u8], site: &[u64], links: &[u64], s: Setting) -> usize
    requires formed { Formed site.now links.now s }
    requires room { Room (image site.now links.now) out.old 0 }
    ensures { Wrote (image site.now links.now)
        out.old 0 out.new result }
{
    let count = s.n as usize + 2;
    let start = image::table_bytes(count);
    let head = [word(count)];
    let k = cells::put_words(out, 0, 4, &head);
    let a = write_general(out, k, start, site);
    let b = boxes::write_boxes(out, k + 8, a, site, s);
    mail::write_mail(out, start - 8, b, links, s)
}

// The image of a site by form goes to the front of `out`; too short a buffer stays as it is.
pub fn write_formed(site: &[u64], links: &[u64], out: &mut [u8]) -> Result<usize, Refusal>
    requires { memory_form site.now links.now ≡ true }
    ensures { WriteIs site.now links.now
        out.old result out.new }
{
    let e = measure(site, links);
    if out.len() < e.total {
        return Err(Refusal::Buffer);
    }
    let end = write_image(out, site, links, e.setting);
    Ok(end)
}

// How many bytes the image has, for a caller who wants to know before a buffer is lent.
pub fn image_length(site: &[u64], links: &[u64]) -> Result<usize, Refusal>
    ensures { LengthIs site.now links.now result }
{
    if memory::is_by_form(site, links) {
        let e = measure(site, links);
        return Ok(e.total);
    }
    Err(Refusal::Form)
}

// The image goes to the front of the buffer: 1, then 12, found before the first byte is written.
pub fn write(site: &[u64], links: &[u64], image: &mut [u8]) -> Result<usize, Refusal>
    ensures { WriteIs site.now links.now
        image.old result image.new }
{
    if memory::is_by_form(site, links) {
        return write_formed(site, links, image);
    }
    Err(Refusal::Form)
}

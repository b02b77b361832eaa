// The stored image of a site: its length, its writer and its reader.
ghost use Rattle.journal.specs.Images.{LengthAnswered, WriteAnswered, ReadAnswered};

use crate::answered::{number_of, or_before};
use rules::numbers::answer_number;

pub fn journal_image_length(site: &[u64], links: &[u64], length: &mut usize) -> u32
    ensures { LengthAnswered site.now links.now length.old
        length.new result }
{
    let w = writer::image_length(site, links);
    *length = or_before(w, *length);
    number_of(w)
}

pub fn journal_write(site: &[u64], links: &[u64], image: &mut [u8], length: &mut usize) -> u32
    ensures { WriteAnswered site.now links.now image.old
        image.new length.old length.new result }
{
    let written = writer::write(site, links, image);
    *length = or_before(written, *length);
    number_of(written)
}

pub fn journal_read(image: &[u8], site: &mut [u64], links: &mut [u64]) -> u32
    ensures { ReadAnswered image.now site.old links.old
        site.new links.new result }
{
    answer_number(reader::read(image, site, links))
}

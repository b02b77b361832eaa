// The stored image of a site: its length, its writer and its reader.
ghost use Rattle.journal.specs.Images.{LengthAnswered, WriteAnswered, ReadAnswered};

#[unsafe(no_mangle)]
pub extern "C" fn journal_image_length(site: &[u64], links: &[u64], length: &mut usize) -> u32
    ensures { LengthAnswered site.now links.now length.old
        length.new result }
{
    journal::journal_image_length(site, links, length)
}

#[unsafe(no_mangle)]
pub extern "C" fn journal_write(
    site: &[u64],
    links: &[u64],
    image: &mut [u8],
    length: &mut usize,
) -> u32
    ensures { WriteAnswered site.now links.now image.old
        image.new length.old length.new result }
{
    journal::journal_write(site, links, image, length)
}

#[unsafe(no_mangle)]
pub extern "C" fn journal_read(image: &[u8], site: &mut [u64], links: &mut [u64]) -> u32
    ensures { ReadAnswered image.now site.old links.old
        site.new links.new result }
{
    journal::journal_read(image, site, links)
}

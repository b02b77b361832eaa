// The buffers: for a line, an image, the desk, and the words of a site.
use crate::answer::Room;
use streams::{Status, Streams};

// Images of 128 KiB, and the links of most sites: what is longer is refused with 12.
const IMAGE: usize = 131072;

const LINKS: usize = 65536;

// `site `, such an image in hex, and one byte more, which a longer line fills.
const LINE: usize = 2 * IMAGE + 6;

const ROW: usize = row::HEAD + 4096 + (index::NEXTS + 4096);

const SITE: usize = memory::GENERAL + 5 * ROW;

// Left and right frames.
const DESK: usize = 64;

// No site is lent yet: words of zeros are none by form.
pub(crate) fn serve<S: Streams>(rt: &S) -> Status {
    let mut piece = io::large_buffer();
    let mut line = [0u8; LINE];
    let mut image = [0u8; IMAGE];
    let mut desk = [0u64; DESK];
    let mut site = [0u64; SITE];
    let mut links = [0u64; LINKS];
    let mut room = Room {
        image: &mut image,
        desk: &mut desk,
        site: &mut site,
        links: &mut links,
    };
    by_lines::serve(rt, b"desk", &mut piece, &mut line, &mut room)
}

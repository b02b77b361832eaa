// All that is done to an image. The bytes are the image and one more, which is no part of it.
use crate::bench::Bench;
use crate::count::Count;
use crate::{cuts, flips, rooms, show};

fn whole(image: &[u8], bench: &mut Bench) -> Count {
    let mut count = Count::default();
    count.add(bench.read_all(image));
    count
}

fn image_parts(image: &mut [u8], bench: &mut Bench) {
    show::part(b"whole: ", whole(image, bench));
    show::part(b"buffers: ", rooms::buffers(image, bench));
    show::part(b"lowest bits: ", flips::flips(image, 1, bench));
    show::part(b"highest bits: ", flips::flips(image, 128, bench));
    show::part(b"all bits: ", flips::flips(image, 255, bench));
    show::part(b"cuts: ", cuts::cuts(image, bench));
    show::part(b"site words: ", rooms::site_words(image, bench));
    show::part(b"link words: ", rooms::links_words(image, bench));
}

// One part after the other.
pub(crate) fn parts(bytes: &mut [u8], bench: &mut Bench) {
    let n = bytes.len().saturating_sub(1);
    image_parts(&mut bytes[..n], bench);
    show::part(b"longer: ", cuts::longer(bytes, bench));
}

// Every number of words lent to the reader, every number of bytes lent to the writer.
use crate::bench::Bench;
use crate::count::Count;

// From no word of the site to all, with all those of the links.
pub(crate) fn site_words(image: &[u8], bench: &mut Bench) -> Count {
    let all = bench.links.len();
    Count::of_each(bench.site.len() + 1, |k| bench.read(image, k, all))
}

// From no word of the links to all, with all those of the site.
pub(crate) fn links_words(image: &[u8], bench: &mut Bench) -> Count {
    let all = bench.site.len();
    Count::of_each(bench.links.len() + 1, |k| bench.read(image, all, k))
}

// From no byte for the writer to one more than the image has.
pub(crate) fn buffers(image: &[u8], bench: &mut Bench) -> Count {
    bench.read_all(image);
    Count::of_each(image.len() + 2, |k| bench.write(image, k))
}

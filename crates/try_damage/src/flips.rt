// One byte of the image changed.
use crate::bench::Bench;
use crate::count::{Count, Outcome};

fn flip(image: &mut [u8], at: usize, bits: u8) {
    if at < image.len() {
        image[at] ^= bits;
    }
}

fn flipped(image: &mut [u8], at: usize, bits: u8, bench: &mut Bench) -> Outcome {
    flip(image, at, bits);
    let o = bench.read_all(image);
    flip(image, at, bits);
    o
}

// Each byte in turn; the image is then as it was.
pub(crate) fn flips(image: &mut [u8], bits: u8, bench: &mut Bench) -> Count {
    Count::of_each(image.len(), |at| flipped(image, at, bits, bench))
}

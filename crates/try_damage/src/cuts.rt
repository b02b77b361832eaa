// The image ends earlier, or one byte later.
use crate::bench::Bench;
use crate::count::{Count, Outcome};

// Every shorter length from 0 on.
pub(crate) fn cuts(image: &[u8], bench: &mut Bench) -> Count {
    let mut count = Count::default();
    for end in 0..image.len() {
        count.add(bench.read_all(&image[..end]));
    }
    count
}

fn longer_by(image: &mut [u8], b: u8, bench: &mut Bench) -> Outcome {
    if let Some(last) = image.last_mut() {
        *last = b;
    }
    bench.read_all(image)
}

// The bytes are an image and one more: each byte that it can be.
pub(crate) fn longer(image: &mut [u8], bench: &mut Bench) -> Count {
    let mut count = Count::default();
    for b in 0..=u8::MAX {
        count.add(longer_by(image, b, bench));
    }
    count
}

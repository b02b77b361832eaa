// Reads a trace from standard input and writes the answer to each line to standard output.
//
// With the argument `report` it tells at its end, on descriptor 3, how it went: 0 read to its end,
// 1 refused, 3 input or output failed. With `report image` the site's image goes to descriptor 4.
#![tactic(auto)]

use feed::state::{LINKS_WORDS, SITE_WORDS};
use std::io::Result;
use streams::{Status, Streams};

mod run;
mod site_image;
mod tell;

// Descriptor 4, where the image is asked for.
fn image_of<S: Streams>(rt: &S) -> Option<Result<S::File>> {
    if streams::has_argument(rt, 1, b"report") && streams::has_argument(rt, 2, b"image") {
        return Some(site_image::open(rt));
    }
    None
}

// The site's image, where one is asked for and the trace was read to its end.
fn finish<S: Streams>(
    rt: &S,
    status: Status,
    to: Option<Result<S::File>>,
    site: &[u64],
    links: &[u64],
    out: &mut [u8],
) -> Status {
    if status != Status::Done {
        return status;
    }
    match to {
        Some(image) => site_image::send_image(rt, image, site, links, out),
        None => status,
    }
}

fn main(rt: HostRuntime) {
    let mut site = [0u64; SITE_WORDS];
    let mut links = [0u64; LINKS_WORDS];
    let mut input = io::large_buffer();
    let mut out = io::large_buffer();
    let image = image_of(&rt);
    let status = run::run(&rt, &mut site, &mut links, &mut input, &mut out);
    if streams::has_argument(&rt, 1, b"report") {
        let last = finish(&rt, status, image, &site, &links, &mut out);
        streams::report(&rt, u8::from(last));
    }
}

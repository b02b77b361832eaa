// Feeds the trace on standard input to the library in pieces of 1, 2, 63, 64 and 65 bytes and
// whole, into buffers of different lengths, and writes what it says: the same each time.
#![tactic(auto)]

use feed::state::{LINKS_WORDS, LONGEST_ANSWER, SITE_WORDS};

const STDIN: i32 = 0;

const STDOUT: i32 = 1;

// Feeds the input, size bytes at a time.
fn feed_cut(input: &[u8], size: usize, site: &mut [u64], links: &mut [u64], out: &mut [u8]) {
    let mut f = feed::start();
    let mut rest = input;
    while !rest.is_empty() {
        let piece = &rest[..size.min(rest.len())];
        let Ok(t) = feed::feed_piece(f, piece, site, links, out) else {
            return;
        };
        let (at, took) = (t.at, t.took);
        io::write_all(STDOUT, &out[..at]);
        f = t.feed;
        if took == 0 {
            return;
        }
        rest = &rest[took..];
    }
    let Ok(at) = feed::feed_end(f, out) else {
        return;
    };
    io::write_all(STDOUT, &out[..at]);
}

// Every cut; the last with room for one answer at a time.
fn feed_cuts(input: &[u8], site: &mut [u64], links: &mut [u64], out: &mut [u8], small: &mut [u8]) {
    for size in [1, 2, 63, 64, 65, 65536] {
        feed_cut(input, size, site, links, out);
    }
    feed_cut(input, 65536, site, links, small);
}

fn main() {
    let mut site = [0u64; SITE_WORDS];
    let mut links = [0u64; LINKS_WORDS];
    let mut input = io::large_buffer();
    let mut out = io::large_buffer();
    let mut small = [0u8; LONGEST_ANSWER];
    let n = io::read_full(STDIN, &mut input);
    feed_cuts(&input[..n], &mut site, &mut links, &mut out, &mut small);
}

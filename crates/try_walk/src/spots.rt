// Words of the site and of its links, by the layout that the engine's documents give.
// A second time, and not the engine's own names: a test says by itself where a word stands.

// The general words, and where they stand.
pub(crate) const N: usize = 0;

pub(crate) const J: usize = 1;

pub(crate) const L: usize = 2;

pub(crate) const EPOCH: usize = 3;

pub(crate) const PRESENT: usize = 4;

pub(crate) const GENERAL: usize = 5;

// A box's row: its last agreed number, its first, its count of records, and its words before these.
pub(crate) const LAST: usize = 4;

pub(crate) const FIRST: usize = 5;

pub(crate) const ROW_COUNT: usize = 21;

pub(crate) const ROW_HEAD: usize = 22;

// Behind the room for records the index: its slots, and its words before those beside the records.
pub(crate) const SLOTS: usize = 64;

pub(crate) const NEXTS: usize = 128;

// A place of a mail: its count of records, and its words before these.
pub(crate) const PLACE_COUNT: usize = 5;

pub(crate) const PLACE_HEAD: usize = 6;

// A link: its first place, its count of mails, and its words before the places.
pub(crate) const LINK_COUNT: usize = 1;

pub(crate) const LINK_HEAD: usize = 2;

pub(crate) fn get(words: &[u64], at: usize) -> u64 {
    words.get(at).copied().unwrap_or(0)
}

pub(crate) fn put(words: &mut [u64], at: usize, v: u64) {
    if at < words.len() {
        words[at] = v;
    }
}

// The records of frames 1 and 1, 2 and 2, to k and k, from at on.
pub(crate) fn put_pairs(words: &mut [u64], at: usize, k: usize) {
    let mut pair = 0u64;
    for i in 0..k {
        pair = pair.wrapping_add((1 << 32) + 1);
        put(words, at.wrapping_add(i), pair);
    }
}

fn less(k: u64, by: u64) -> usize {
    k.saturating_sub(by) as usize
}

// The fields, room for the records, and their index.
pub(crate) fn row_width(j: u32) -> usize {
    ROW_HEAD + j as usize + NEXTS + j as usize
}

// The row of box c: behind the general words and the rows of the boxes before it.
pub(crate) fn row_at(j: u32, c: u64) -> usize {
    less(c, 1).wrapping_mul(row_width(j)).wrapping_add(GENERAL)
}

// A place of a mail: its fields, and room for records.
pub(crate) fn place_width(j: u32) -> usize {
    PLACE_HEAD + j as usize
}

// The row of the link from a to b: the links of the senders before a, those of a to boxes before b.
pub(crate) fn link_at(n: u32, j: u32, l: u32, a: u64, b: u64) -> usize {
    let width = (l as usize)
        .wrapping_mul(place_width(j))
        .wrapping_add(LINK_HEAD);
    let own = if b < a { less(b, 1) } else { less(b, 2) };
    let before = less(a, 1).wrapping_mul(less(n as u64, 1));
    before.wrapping_add(own).wrapping_mul(width)
}

// The place after p, round the link.
pub(crate) fn after(p: usize, l: usize) -> usize {
    let q = p.wrapping_add(1);
    if q < l { q } else { 0 }
}

// The head leaves the link whose row begins at `at`: the place after it is the first, and there is
// one mail less.
pub(crate) fn hand_over(links: &mut [u64], at: usize, l: u32) {
    let first = after(get(links, at) as usize, l as usize);
    let count = at.wrapping_add(LINK_COUNT);
    let left = less(get(links, count), 1);
    put(links, at, first as u64);
    put(links, count, left as u64);
}

// Where a site ends in its words, by the layout that the engine's documents give.
// A second time, and not the engine's own names: a test says by itself where a word stands.
use crate::marks;

// The general words, and where the sizes stand among them.
const N: usize = 0;

const J: usize = 1;

const L: usize = 2;

const GENERAL: usize = 5;

// What stands before the records of a box and of a mail, and before the mails of a link.
const ROW_HEAD: usize = 22;

const PLACE_HEAD: usize = 6;

// What stands in an index before the words beside the records.
const NEXTS: usize = 128;

const LINK_HEAD: usize = 2;

fn get(words: &[u64], at: usize) -> usize {
    words.get(at).map_or(0, |word| *word as usize)
}

// A box: its fields, its records, and their index.
fn row_width(j: usize) -> usize {
    (ROW_HEAD + NEXTS).wrapping_add(j).wrapping_add(j)
}

// The general words, and a row for each box.
fn site_end(n: usize, j: usize) -> usize {
    n.wrapping_mul(row_width(j)).wrapping_add(GENERAL)
}

// A link of L places for each ordered pair of different boxes.
fn links_end(n: usize, j: usize, l: usize) -> usize {
    let link = l
        .wrapping_mul(j.wrapping_add(PLACE_HEAD))
        .wrapping_add(LINK_HEAD);
    n.wrapping_mul(n.saturating_sub(1)).wrapping_mul(link)
}

// The words past those of the site that they hold are as they were.
pub(crate) fn rest_kept(site: &[u64], links: &[u64]) -> bool {
    let n = get(site, N);
    let j = get(site, J);
    let l = get(site, L);
    if (5 < n) | (16 < l) {
        return false;
    }
    marks::kept(site, site_end(n, j)) & marks::kept(links, links_end(n, j, l))
}

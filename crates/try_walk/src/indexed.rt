// The index of a box's agreed records, put into its row by the layout that the engine's documents
// give: for each remainder of a left frame by 64 the smallest number and the largest, and beside
// each record the next number of its remainder.
use crate::spots::{FIRST, LAST, NEXTS, ROW_COUNT, ROW_HEAD, SLOTS, get, put};

fn word(site: &[u64], at: usize, k: usize) -> u64 {
    get(site, at.wrapping_add(k))
}

// How many numbers there are from first to last.
fn agreed(site: &[u64], at: usize) -> u64 {
    let after = word(site, at, LAST).wrapping_add(1);
    after.saturating_sub(word(site, at, FIRST))
}

// The words of the row are those of a book: numbers from 1 on, and the agreed records are held.
fn is_book(site: &[u64], at: usize, j: usize) -> bool {
    let first = word(site, at, FIRST);
    let after = word(site, at, LAST).wrapping_add(1);
    let count = word(site, at, ROW_COUNT);
    (0 < first) & (first <= after) & (agreed(site, at) <= count) & (count <= j as u64)
}

fn clear(site: &mut [u64], index: usize) {
    for i in 0..NEXTS {
        put(site, index.wrapping_add(i), 0);
    }
}

// The number goes behind the last of its slot; where there was none it is the head.
fn link(site: &mut [u64], head: usize, nexts: usize, before: u64, first: u64, number: u64) {
    if before == 0 {
        put(site, head, number);
        return;
    }
    let place = before.saturating_sub(first) as usize;
    put(site, nexts.wrapping_add(place), number);
}

// .. and is the last now.
fn end(site: &mut [u64], tail: usize, next: usize, number: u64) {
    put(site, tail, number);
    put(site, next, 0);
}

fn slot_of(record: u64) -> usize {
    ((record >> 32) % 64) as usize
}

// The record at place i comes to the index.
fn enter(site: &mut [u64], at: usize, index: usize, i: usize) {
    let first = word(site, at, FIRST);
    let number = first.wrapping_add(i as u64);
    let record = word(site, at, ROW_HEAD.wrapping_add(i));
    let head = index.wrapping_add(slot_of(record));
    let tail = head.wrapping_add(SLOTS);
    let nexts = index.wrapping_add(NEXTS);
    let before = get(site, tail);
    link(site, head, nexts, before, first, number);
    end(site, tail, nexts.wrapping_add(i), number);
}

fn enter_all(site: &mut [u64], at: usize, index: usize, n: usize) {
    for i in 0..n {
        enter(site, at, index, i);
    }
}

// The row that begins at `at` gets the index of its agreed records, if its words are a book's.
pub(crate) fn build(site: &mut [u64], at: usize, j: usize) {
    if !is_book(site, at, j) {
        return;
    }
    let index = at.wrapping_add(ROW_HEAD).wrapping_add(j);
    let n = agreed(site, at) as usize;
    clear(site, index);
    enter_all(site, at, index, n);
}

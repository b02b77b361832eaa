// What is written of a line.
use crate::lent::Lent;
use crate::spots::{EPOCH, LAST, get, row_at};
use rules::model::Answer;

// Bytes by the kit's io, as every program here writes; `Display` needs a handle and is no plainer.
const STDOUT: i32 = 1;

pub(crate) fn text(s: &[u8]) {
    io::write_all(STDOUT, s);
}

pub(crate) fn number(x: u64) {
    io::print_decimal(STDOUT, x);
}

pub(crate) fn next_number(x: u64) {
    text(b" ");
    number(x);
}

pub(crate) fn answer_number(a: Answer) {
    text(b" | ");
    number(rules::numbers::answer_number(a) as u64);
}

// An answer's number; a refusal and a discard with whether every word stayed that has to.
pub(crate) fn answer(a: Answer, kept: bool) {
    answer_number(a);
    match a {
        Answer::Done | Answer::Taken => (),
        Answer::Discarded(_) | Answer::Refused(_) => {
            text(if kept { b" kept" } else { b" CHANGED" });
        }
    }
}

// The words from a to e.
pub(crate) fn words(w: &[u64], a: usize, e: usize) {
    for i in a..e {
        next_number(get(w, i));
    }
}

// How many boxes are shown.
fn boxes(n: u32) -> u64 {
    if 5 < n { 0 } else { n as u64 }
}

// The epoch, and the last agreed number of each box.
pub(crate) fn standing(z: Lent, site: &[u64]) {
    text(b" | ");
    number(get(site, EPOCH));
    text(b" |");
    for c in 1..=boxes(z.n) {
        next_number(get(site, row_at(z.j, c).wrapping_add(LAST)));
    }
    text(b"\n");
}

// What a refusal's number means, as the manuals have it, and what is wrong with a line.
use crate::fault::Fault;
use crate::put::put;

fn put_words(out: &mut [u8], at: usize, words: &[u8]) -> usize {
    let p = put(out, at, b": ");
    put(out, p, words)
}

// A colon and what the number means; nothing for a number that no refusal has.
pub(crate) fn put_meaning(out: &mut [u8], at: usize, code: u64) -> usize {
    match code {
        1 => put_words(out, at, b"the image is not that of a site by form"),
        2 => put_words(
            out,
            at,
            b"a box number outside 1..n, or a link from a box to itself",
        ),
        3 => put_words(
            out,
            at,
            b"the step's condition fails (of lose and repeat: the link is empty)",
        ),
        4 => put_words(out, at, b"elect with fewer present than a majority"),
        5 => put_words(out, at, b"stop, return or timeout at epoch 1,000,000"),
        6 => put_words(out, at, b"the new proposal number would exceed 999,999,999"),
        7 => put_words(
            out,
            at,
            b"the next load would need a record beyond J, or pass 1,000,000,000",
        ),
        8 => put_words(
            out,
            at,
            b"a mail would go onto a full link (of repeat: the copy)",
        ),
        10 => put_words(out, at, b"an offered frame number is 0"),
        11 => put_words(out, at, b"a line that cannot be read"),
        12 => put_words(out, at, b"a buffer is too short"),
        13 => put_words(out, at, b"sizes outside their ranges"),
        14 => put_words(
            out,
            at,
            b"a holds line that is untrue, or of a load no longer kept",
        ),
        _ => at,
    }
}

// A colon and what is wrong with the line, where that is plain.
pub(crate) fn put_fault(out: &mut [u8], at: usize, why: Fault) -> usize {
    match why {
        Fault::Unended => put_words(out, at, b"no newline ends it"),
        Fault::Empty => put_words(out, at, b"it is empty"),
        Fault::Mark => put_words(out, at, b"it begins with a byte order mark"),
        Fault::Return => put_words(out, at, b"it ends in a carriage return"),
        Fault::Remark => put_words(out, at, b"it is a remark"),
        Fault::Tab => put_words(out, at, b"it has a tab"),
        Fault::Space => put_words(out, at, b"it has a space too many"),
        Fault::Long => put_words(out, at, b"it has more than 64 bytes"),
        Fault::Other => at,
    }
}

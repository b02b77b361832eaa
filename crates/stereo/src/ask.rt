// What a line at the desk asks: `site IMAGE`, `left N T`, `right N T`, `withdraw SIDE N`, `pair N`.
use desk::answers::Side;

#[derive(Clone, Copy)]
pub enum Ask {
    Site,
    Give(Side, u32, u32),
    Withdraw(Side, u32),
    Pair(u32),
    Unreadable,
}

// How many bytes `site ` has: the image begins there.
pub(crate) const IMAGE: usize = 5;

// The word w, a frame, a space, a tick.
fn give_of(w: &[u8], side: Side, line: &[u8]) -> Ask {
    let n = line.len();
    let k = w.len();
    if n < k {
        return Ask::Unreadable;
    }
    let e = scan::find(line, k, n, 32);
    if n <= e {
        return Ask::Unreadable;
    }
    match (
        lines::read_one(w, &line[..e]),
        lines::read_one(b"", &line[e + 1..]),
    ) {
        (Some(frame), Some(tick)) => Ask::Give(side, frame, tick),
        _ => Ask::Unreadable,
    }
}

fn withdraw_of(side: Side, frame: Option<u32>) -> Ask {
    match frame {
        Some(f) => Ask::Withdraw(side, f),
        None => Ask::Unreadable,
    }
}

fn pair_of(frame: Option<u32>) -> Ask {
    match frame {
        Some(f) => Ask::Pair(f),
        None => Ask::Unreadable,
    }
}

// One word stands behind `site `.
fn site_of(line: &[u8]) -> Ask {
    let n = line.len();
    if n <= IMAGE {
        return Ask::Unreadable;
    }
    if scan::find(line, IMAGE, n, 32) == n {
        return Ask::Site;
    }
    Ask::Unreadable
}

pub(crate) fn read(line: &[u8]) -> Ask {
    if lines::starts(b"site ", line) {
        return site_of(line);
    }
    if lines::starts(b"left ", line) {
        return give_of(b"left ", Side::Left, line);
    }
    if lines::starts(b"right ", line) {
        return give_of(b"right ", Side::Right, line);
    }
    if lines::starts(b"withdraw left ", line) {
        return withdraw_of(Side::Left, lines::read_one(b"withdraw left ", line));
    }
    if lines::starts(b"withdraw right ", line) {
        return withdraw_of(Side::Right, lines::read_one(b"withdraw right ", line));
    }
    pair_of(lines::read_one(b"pair ", line))
}

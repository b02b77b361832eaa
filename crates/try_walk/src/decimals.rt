// The decimals of a line.

// A decimal goes on with a digit; one beyond 2^64 − 1 is 2^64 − 1.
// No `saturating_mul`: it tells a few of the largest numbers apart that this reads as 2^64 − 1.
fn grow(value: u64, b: u8) -> u64 {
    match b {
        b'0'..=b'9' if value <= 1844674407370955160 => value * 10 + (b - b'0') as u64,
        b'0'..=b'9' => u64::MAX,
        _ => value,
    }
}

fn number(word: &[u8]) -> u64 {
    let mut value = 0;
    for b in word {
        value = grow(value, *b);
    }
    value
}

// The last four numbers of s from at on, the latest at the end.
pub(crate) fn numbers_at(s: &[u8], at: usize) -> [u64; 4] {
    let mut numbers = [0; 4];
    for word in s[at.min(s.len())..].split(|b| *b == b' ') {
        let [_, b, c, d] = numbers;
        numbers = [b, c, d, number(word)];
    }
    numbers
}

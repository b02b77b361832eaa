// The first place of a byte in part of a text.
#![tactic(auto)]

ghost use Rattle.std.specs.Prelude.{◌≡◌, ◌==◌, ◌+◌, ◌≤◌, length, position};
ghost use Rattle.scan.specs.Bytes.{index_of, slice};

fn place(s: &[u8], b: u8) -> Option<usize>
    ensures { result ≡ position (λ x. x == b) s.now }
{
    s.iter().position(|x| *x == b)
}

// The first place of b from start on and before end; or end, where it has none.
pub fn find(a: &[u8], start: usize, end: usize, b: u8) -> usize
    requires order { start ≤ end }
    requires in_bounds { end ≤ length a.now }
    ensures place { result ≡ start + index_of b (slice start end a.now) }
    ensures before_end { result ≤ end }
{
    match place(&a[start..end], b) {
        Some(i) => start + i,
        None => end,
    }
}

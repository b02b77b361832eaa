// Large buffers. Each comes from a function, so that its length is known by its type: a proof that
// has an array of millions of bytes before it element by element does not end.
ghost use Rattle.std.specs.Prelude.{◌≡◌, All};

// N bytes, all 0.
pub fn bytes<const N: usize>() -> [u8; N]
    ensures { All (λ x. x ≡ 0) result }
{
    [0u8; N]
}

// N words, all 0.
pub fn words<const N: usize>() -> [u64; N]
    ensures { All (λ x. x ≡ 0) result }
{
    [0u64; N]
}

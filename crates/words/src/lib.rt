// Words that the caller lends: copies, rows of one width, and the places of a ring.
#![tactic(auto)]

ghost use Rattle.std.specs.Prelude.{◌≡◌, ◌+◌, ◌*◌, ◌^◌, ◌≤◌, ◌<◌, length, replicate};
ghost use Rattle.words.specs.Rows.{part, splice};
ghost use Rattle.words.specs.Ring.{slot, next, previous};

// dst becomes the words of src, which are as many. No `copy_from_slice`: it calls memmove, which an
// archive for C would then need from outside.
pub fn copy(src: &[u64], dst: &mut [u64])
    requires { length src.now ≡ length dst.old }
    ensures { dst.new ≡ src.now }
{
    for i in 0..src.len() {
        dst[i] = src[i];
    }
}

// The n words of src from a on go into dst from b on.
pub fn copy_part(src: &[u64], a: usize, dst: &mut [u64], b: usize, n: usize)
    requires { (a + n ≤ length src.now) × (b + n ≤ length dst.old) }
    ensures { dst.new ≡ splice dst.old b n (part src.now a n) }
{
    copy(&src[a..a + n], &mut dst[b..b + n]);
}

// The n words from a on go to b, in order: none of them may be written before it is read.
pub fn copy_within(words: &mut [u64], a: usize, b: usize, n: usize)
    requires n_in_bounds { (a + n ≤ length words.old) × (b + n ≤ length words.old) }
    requires n_bound { a < b → a + n ≤ b }
    ensures { words.new ≡ splice words.old b n (part words.old a n) }
{
    for i in 0..n {
        words[b + i] = words[a + i];
    }
}

// Every word of dst becomes v.
pub fn fill(dst: &mut [u64], v: u64)
    ensures { dst.new ≡ replicate (length dst.old) v }
{
    dst.fill(v);
}

// A word as a size. Rust has no From between the two, as sizes may be narrower elsewhere; here they
// are not.
pub fn size(x: u64) -> usize
    ensures { result ≡ x }
{
    x as usize
}

// A size as a word, as above.
pub fn word(x: usize) -> u64
    ensures { result ≡ x }
{
    x as u64
}

// Where row i of n rows of w words begins, and that it ends within them.
pub fn row_at(i: usize, w: usize, n: usize) -> usize
    requires { (i < n) × (n * w < 2 ^ 64) }
    ensures { (result ≡ i * w) × (result + w ≤ n * w) }
{
    i * w
}

// The place i places on from s, round a ring of l. No sum here passes l.
pub fn place(l: usize, s: usize, i: usize) -> usize
    requires { (s < l) × (i ≤ l) }
    ensures { (result ≡ slot l s i) × (result < l) }
{
    let left = l - s;
    if i < left {
        return s + i;
    }
    i - left
}

// The place after s, round a ring of l.
pub fn after(l: usize, s: usize) -> usize
    requires { s < l }
    ensures { (result ≡ next l s) × (result < l) }
{
    place(l, s, 1)
}

// The place before s, round a ring of l.
pub fn before(l: usize, s: usize) -> usize
    requires { s < l }
    ensures { (result ≡ previous l s) × (result < l) }
{
    place(l, s, l - 1)
}

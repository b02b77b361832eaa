// The longer of two load lists (Q-14), and the part of a list from a later first number on. A list
// is lent words, a record each: left × 2^32 + right.
#![tactic(auto)]

ghost use Rattle.std.specs.Prelude.{◌≡◌, ◌≤◌, length};
ghost use Rattle.longer.specs.Longer.{begins, longer_of, longer_number, Part, from_first};

// Which of two lists is handed back: the first, the second, or neither, since a number that both
// hold differs. An Option of a side would say the three no more plainly.
#[derive(Clone, Copy)]
pub enum Which {
    First,
    Second,
    Differs,
}

// Whether the shorter list is the beginning of the longer one.
fn is_beginning(shorter: &[u64], longer: &[u64]) -> bool
    requires { length shorter.now ≤ length longer.now }
    ensures { result ≡ begins shorter.now longer.now }
{
    longer.starts_with(shorter)
}

// Which list is the longer, the first on equal length, provided that the shorter is its beginning.
pub fn longer_is(a: &[u64], b: &[u64]) -> Which
    ensures { result ≡ longer_of a.now b.now }
{
    if b.len() <= a.len() {
        if is_beginning(b, a) {
            return Which::First;
        }
        return Which::Differs;
    }
    if is_beginning(a, b) {
        return Which::Second;
    }
    Which::Differs
}

// The list that an answer names: it itself, not a copy, and whole. None where they differ.
pub fn part_of<'a>(is: Which, a: &'a [u64], b: &'a [u64]) -> &'a [u64]
    ensures { Part is a.entry b.entry result }
{
    match is {
        Which::First => a,
        Which::Second => b,
        Which::Differs => &a[0..0],
    }
}

// The longer of two lists, provided that the shorter is its beginning; else none.
pub fn longer<'a>(a: &'a [u64], b: &'a [u64]) -> &'a [u64]
    ensures { Part (longer_of a.now b.now) a.entry b.entry result }
{
    part_of(longer_is(a, b), a, b)
}

// 1 and 2 for the first and the second list; the paper's 22 where they differ.
// No `From`: the pages name this function.
pub fn longer_number(is: Which) -> u32
    ensures { result ≡ longer_number is }
{
    match is {
        Which::First => 1,
        Which::Second => 2,
        Which::Differs => 22,
    }
}

// The part of a list that begins with number own, from number first on: the whole where own is not
// below first, none where the list ends before it.
pub fn from_first<'a>(list: &'a [u64], own: u64, first: u64) -> &'a [u64]
    ensures { result.now ≡ from_first own first list.now }
{
    if first <= own {
        return list;
    }
    let dropped = first - own;
    if dropped < list.len() as u64 {
        return &list[dropped as usize..];
    }
    &list[0..0]
}

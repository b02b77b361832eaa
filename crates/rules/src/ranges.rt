// Ranges of sizes and of box numbers.
ghost use Rattle.std.specs.Prelude.{◌≡◌};
ghost use Rattle.rules.specs.Sizes.{sizes_form};
ghost use Rattle.rules.specs.Site.{is_box, is_link};
ghost use Rattle.rules.specs.Bounds.{bounded};

// Load numbers, and by form every number field and last.
pub const MOST_NUMBER: u32 = 1000000000;

// Proposal numbers.
pub const MOST_PN: u32 = 999999999;

// The last of a peer of which nothing is known.
pub const UNKNOWN: u32 = u32::MAX;

// A record is left * FRAME + right.
pub const FRAME: u64 = 4294967296;

// The numbers of what a box keeps, or of a mail; `last` may be any, so the sum is a wider one.
pub(crate) fn are_bounded(pn: u32, last: u32, first: u32) -> bool
    ensures { result ≡ bounded pn last first }
{
    (pn <= MOST_PN) & (last <= MOST_NUMBER) & (first as u64 <= last as u64 + 1)
}

pub fn are_sizes(n: u64, j: u64, l: u64) -> bool
    ensures { result ≡ sizes_form n j l }
{
    let boxes = (1 <= n) & (n <= 5);
    let loads = (1 <= j) & (j <= 4096);
    let mails = (1 <= l) & (l <= 16);
    boxes & loads & mails
}

pub fn is_box(n: u32, c: u32) -> bool
    ensures { result ≡ is_box n c }
{
    (1 <= c) & (c <= n)
}

pub fn is_link(n: u32, a: u32, b: u32) -> bool
    ensures { result ≡ is_link n a b }
{
    let sender = is_box(n, a);
    let receiver = is_box(n, b);
    sender & receiver & (a != b)
}

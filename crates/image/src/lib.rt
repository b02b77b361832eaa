// The image of a site, as a definition (specs/) and its theorems (proofs/). In code only the groups
// in which the words of a box and of a mail stand there: their bytes, the first word, how many; and
// how many bytes the table, the general body and the heads have.
#![tactic(auto)]

ghost use Rattle.std.specs.Prelude.{◌≡◌, ◌+◌, ◌≤◌, length};
ghost use Rattle.rules.specs.Sizes.{most_boxes};
ghost use Rattle.image.specs.Image.{box_groups, first_words, letter_groups};
ghost use Rattle.image.specs.Longest.{table_bytes, box_head_long, letter_head_long};

use cells::Group;
use rules::model::Kind;

// Of the general body.
pub const GENERAL_BYTES: usize = 20;

// The numbers of a box that stand before its best.
const BOX_NUMBERS: usize = row::BEST - row::FLAG;

// Of a box without its peers and records: these, three records and a count.
const BOX_HEAD: usize = 4 * BOX_NUMBERS + 28;

// Of a box of n without its records.
// Not one function with `table_bytes`: each is its own line of the paper.
pub fn box_head_bytes(n: usize) -> usize
    requires { n ≤ most_boxes }
    ensures { result ≡ box_head_long n }
{
    BOX_HEAD + 4 * n
}

// Of the table of contents, for so many bodies.
pub fn table_bytes(bodies: usize) -> usize
    requires { bodies ≤ most_boxes + 2 }
    ensures { result ≡ table_bytes bodies }
{
    4 + 8 * bodies
}

pub fn box_groups(n: usize) -> [Group; 4]
    ensures { (result ≡ box_groups n) × (length result ≡ 4) }
{
    [
        Group {
            width: 4,
            from: row::FLAG,
            count: BOX_NUMBERS,
        },
        Group {
            width: 8,
            from: row::BEST,
            count: 3,
        },
        Group {
            width: 4,
            from: row::PEERS,
            count: n,
        },
        Group {
            width: 4,
            from: row::COUNT,
            count: 1,
        },
    ]
}

// How many words of first a mail of this kind has.
// A match and no number of the kind: the paper has this table.
fn first_words(k: Kind) -> usize
    ensures value { result ≡ first_words k }
    ensures upper_bound { result ≤ 1 }
{
    match k {
        Kind::Collect => 0,
        Kind::Last => 1,
        Kind::Begin => 1,
        Kind::Accept => 0,
        Kind::Commit => 1,
        Kind::Lease => 0,
        Kind::LeaseAck => 0,
    }
}

// Of a mail without its records.
pub fn letter_head_bytes(k: Kind) -> usize
    ensures { result ≡ letter_head_long k }
{
    let first = first_words(k);
    20 + 4 * first
}

pub fn letter_groups(k: Kind) -> [Group; 3]
    ensures { (result ≡ letter_groups k) × (length result ≡ 3) }
{
    let first = first_words(k);
    [
        Group {
            width: 4,
            from: letter::KIND,
            count: 3,
        },
        Group {
            width: 4,
            from: letter::FIRST,
            count: first,
        },
        Group {
            width: 4,
            from: letter::UNAGREED,
            count: 2,
        },
    ]
}

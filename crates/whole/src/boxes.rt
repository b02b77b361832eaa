// Boxes in bytes: the words of a head, then its records.
ghost use Rattle.std.specs.Prelude.{◌≡◌, [], ◌∷◌, ◌++◌, ◌+◌, ◌-◌, ◌≤◌, length, take};
ghost use Rattle.rules.specs.Sizes.{most_boxes, most_loads};
ghost use Rattle.cells.specs.Cells.{WalkIs};
ghost use Rattle.image.specs.Image.{box_body};
ghost use Rattle.image.specs.Parts.{GoodBox};
ghost use Rattle.whole.specs.Boxes.{box_entry, mail_entry, BoxesAre};

use words::{size, word};

// Box b of n.
pub fn check_box(src: &[u8], at: usize, n: u32, j: u32, b: u32) -> Option<usize>
    requires at_in_bounds { at ≤ length src.now }
    requires n_le_most_boxes { (n ≤ most_boxes) × (j ≤ most_loads) }
    ensures { WalkIs (box_body n) (GoodBox n j b) src.now at result }
{
    let peers = n as usize;
    let least = image::box_head_bytes(peers);
    if src.len() - at < least {
        return None;
    }
    let mut w = [row::UNKNOWN; row::HEAD];
    let groups = image::box_groups(peers);
    let p = cells::get_groups(src, at, &groups, &mut w);
    let count = size(w[row::COUNT]);
    let f = row::head_fault(&w, n, j, b);
    match f {
        None => checker::mail::check_records(src, p, count),
        Some(_) => None,
    }
}

// The words of a table of contents: the count of bodies, and for each body two, where it begins and
// how long it is. The general body's entry, the first box's; the most bodies, and their words.
pub const COUNT: usize = 0;

pub const ENTRY: usize = 2;

pub const GENERAL: usize = 1;

pub const BOXES: usize = 3;

pub const BODIES: usize = 7;

pub const TABLE: usize = 15;

// The entry of a body from p to q goes behind the first k words of a table of contents.
pub fn enter(table: &mut [u64], k: usize, p: usize, q: usize)
    requires { (k + 2 ≤ length table.old) × (p ≤ q) }
    ensures { take (k + 2) table.new ≡ take k table.old ++ (p ∷ (q - p) ∷ []) }
{
    table[k] = word(p);
    table[k + 1] = word(q - p);
}

// Boxes 1 to n, of which at most one leads. Their entries go into the table, behind the count and
// the entry of the general body.
pub fn check_boxes(src: &[u8], at: usize, n: u32, j: u32, table: &mut [u64]) -> Option<usize>
    requires at_in_bounds { at ≤ length src.now }
    requires n_le_most_boxes { (n ≤ most_boxes) × (j ≤ most_loads)
        × (mail_entry n ≤ length table.old) }
    ensures { BoxesAre n j src.now at (take (box_entry 0) table.old)
        table.new result }
{
    let mut p = at;
    let mut leaders: u64 = 0;
    for i in 0..n {
        let q = check_box(src, p, n, j, i + 1)?;
        leaders += le::get_at(src, p, 4);
        enter(table, BOXES + ENTRY * i as usize, p, q);
        p = q;
    }
    if 1 < leaders {
        return None;
    }
    Some(p)
}

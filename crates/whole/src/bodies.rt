// All bodies in bytes, one after another: the general words, the boxes, the mail. Where each begins
// and how long it is goes into the words of a table of contents.
ghost use Rattle.std.specs.Prelude.{◌≡◌, true, ◌≤◌, length, take};
ghost use Rattle.rules.specs.Sizes.{most_boxes, sizes_form};
ghost use Rattle.whole.specs.Boxes.{box_entry, table_words};
ghost use Rattle.whole.specs.Whole.{MailIs, RestIs, ListedIs};

use crate::boxes;

// The links of n boxes.
fn check_mail(src: &[u8], at: usize, n: usize, j: u32, l: usize, table: &mut [u64]) -> Option<usize>
    requires at_in_bounds { at ≤ length src.now }
    requires l_value { sizes_form n j l ≡ true }
    requires n_in_bounds { table_words n ≤ length table.old }
    ensures { MailIs n j l src.now at table.old table.new result }
{
    let q = checker::mail::check_links(src, at, n * (n - 1), j, l)?;
    boxes::enter(table, boxes::BOXES + boxes::ENTRY * n, at, q);
    Some(q)
}

// The boxes and the mail of sizes in range.
fn check_rest(src: &[u8], at: usize, n: u32, j: u32, l: u32, table: &mut [u64]) -> Option<usize>
    requires at_in_bounds { at ≤ length src.now }
    requires l_value { sizes_form n j l ≡ true }
    requires n_in_bounds { table_words n ≤ length table.old }
    ensures { RestIs n j l src.now at (take (box_entry 0) table.old)
        table.new result }
{
    let p = boxes::check_boxes(src, at, n, j, table)?;
    check_mail(src, p, n as usize, j, l as usize, table)
}

// The bodies of an image, the first at `at`.
pub fn check_listed(src: &[u8], at: usize, table: &mut [u64]) -> Option<usize>
    requires at_in_bounds { at ≤ length src.now }
    requires most_boxes_in_bounds { table_words most_boxes ≤ length table.old }
    ensures { ListedIs src.now at table.new result }
{
    if src.len() - at < image::GENERAL_BYTES {
        return None;
    }
    let mut w = [0u64; memory::GENERAL];
    let p = cells::get_words(src, at, 4, &mut w);
    if !memory::is_general(&w) {
        return None;
    }
    let s = memory::setting_of(&w, 0);
    table[boxes::COUNT] = w[memory::N] + 2;
    boxes::enter(table, boxes::GENERAL, at, p);
    check_rest(src, p, s.n, s.j, s.l, table)
}

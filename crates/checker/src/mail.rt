// Records, letters and links in bytes.
ghost use Rattle.std.specs.Prelude.{◌-◌, ◌≤◌, length};
ghost use Rattle.le.specs.Le.{le};
ghost use Rattle.rules.specs.Sizes.{most_loads, most_mails};
ghost use Rattle.cells.specs.Cells.{chain, cells, WalkIs, Many};
ghost use Rattle.image.specs.Image.{letter_bytes, link_bytes};
ghost use Rattle.image.specs.Parts.{GoodRecord, GoodLetter, GoodLink};

use words::size;

pub fn check_record(src: &[u8], at: usize) -> Option<usize>
    requires { at ≤ length src.now }
    ensures { WalkIs (le 8) GoodRecord src.now at result }
{
    if src.len() - at < 8 {
        return None;
    }
    let x = le::get_at(src, at, 8);
    if values::is_proper(x) {
        return Some(at + 8);
    }
    None
}

pub fn check_records(src: &[u8], at: usize, n: usize) -> Option<usize>
    requires { at ≤ length src.now }
    ensures { WalkIs (cells 8) (Many (λ i. GoodRecord) n) src.now at result }
{
    cells::walk(at, n, |p| check_record(src, p))
}

// Its kind says how long its head is.
pub fn check_letter(src: &[u8], at: usize, j: u32) -> Option<usize>
    requires at_in_bounds { at ≤ length src.now }
    requires j_le_most_loads { j ≤ most_loads }
    ensures { WalkIs letter_bytes (GoodLetter j) src.now at result }
{
    if src.len() - at < 4 {
        return None;
    }
    let kind = letter::kind_of(le::get_at(src, at, 4));
    let least = image::letter_head_bytes(kind);
    if src.len() - at < least {
        return None;
    }
    let mut w = [0u64; letter::HEAD];
    let groups = image::letter_groups(kind);
    let p = cells::get_groups(src, at, &groups, &mut w);
    let count = size(w[letter::COUNT]);
    let f = letter::head_fault(&w, j);
    match f {
        None => check_records(src, p, count),
        Some(_) => None,
    }
}

pub fn check_letters(src: &[u8], at: usize, n: usize, j: u32) -> Option<usize>
    requires at_in_bounds { at ≤ length src.now }
    requires j_le_most_loads { j ≤ most_loads }
    ensures { WalkIs (chain letter_bytes) (Many (λ i. GoodLetter j) n) src.now at result }
{
    cells::walk(at, n, |p| check_letter(src, p, j))
}

pub fn check_link(src: &[u8], at: usize, j: u32, l: usize) -> Option<usize>
    requires at_in_bounds { at ≤ length src.now }
    requires j_le_most_loads { (j ≤ most_loads) × (l ≤ most_mails) }
    ensures { WalkIs link_bytes (GoodLink j l) src.now at result }
{
    if src.len() - at < 4 {
        return None;
    }
    let mut w = [0u64; 1];
    let p = cells::get_words(src, at, 4, &mut w);
    let count = size(w[0]);
    if l < count {
        return None;
    }
    check_letters(src, p, count, j)
}

// The links of the mail body, m of them.
pub fn check_links(src: &[u8], at: usize, m: usize, j: u32, l: usize) -> Option<usize>
    requires at_in_bounds { at ≤ length src.now }
    requires j_le_most_loads { (j ≤ most_loads) × (l ≤ most_mails) }
    ensures { WalkIs (chain link_bytes) (Many (λ i. GoodLink j l) m) src.now at result }
{
    cells::walk(at, m, |p| check_link(src, p, j, l))
}

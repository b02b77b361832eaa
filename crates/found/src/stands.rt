// Numbers where they stand in a body, each where it fits.
ghost use Rattle.std.specs.Prelude.{◌≡◌, ◌+◌, ◌≤◌, length};
ghost use Rattle.words.specs.Rows.{splice};
ghost use Rattle.cells.specs.Groups.{group_end, groups_length, Cut};
ghost use Rattle.found.specs.Stands.{word_at, words_at, missing, groups_in};
ghost use Rattle.found.specs.Near.{farthest};

use cells::Group;

// What a number reads as that does not fit: by form in no field.
const MISSING: u64 = 4294967296;

// The number of k bytes at `at`.
pub fn word_at(src: &[u8], at: usize, k: usize) -> u64
    requires { k ≤ 8 }
    ensures value { result ≡ word_at k src.now at }
    ensures upper_bound { k ≤ 4 → result ≤ missing }
{
    if src.len() < k {
        return MISSING;
    }
    if src.len() - k < at {
        return MISSING;
    }
    le::get_at(src, at, k)
}

// The same, of four bytes.
pub fn number_at(src: &[u8], at: usize) -> u64
    ensures value { result ≡ word_at 4 src.now at }
    ensures upper_bound { result ≤ missing }
{
    word_at(src, at, 4)
}

// Numbers of k bytes each from `at` on, as many as dst holds.
fn read_words(src: &[u8], at: usize, k: usize, dst: &mut [u64])
    requires { (k ≤ 8) × (length dst.old ≤ 22) × (at ≤ farthest) }
    ensures { dst.new ≡ words_at k (length dst.old) src.now at }
{
    let mut p = at;
    for x in dst.iter_mut() {
        *x = word_at(src, p, k);
        p += k;
    }
}

// They become the group's words, of w.
fn read_group(src: &[u8], at: usize, g: Group, w: &mut [u64])
    requires { (group_end g ≤ length w.old) × (g.count ≤ 22) × (g.width ≤ 8) × (at ≤ farthest) }
    ensures { w.new ≡ splice w.old g.from g.count (words_at g.width g.count src.now at) }
{
    read_words(src, at, g.width, &mut w[g.from..g.from + g.count]);
}

// The words of the groups, which stand one after another from `at` on.
pub fn read_groups(src: &[u8], at: usize, groups: &[Group], w: &mut [u64])
    requires cut { Cut 0 (length w.old) groups.now }
    requires near { (length w.old ≤ 22) × (at + groups_length groups.now ≤ farthest) }
    ensures { w.new ≡ groups_in groups.now src.now at w.old }
{
    let mut p = at;
    for g in groups {
        read_group(src, p, *g, w);
        p += g.count * g.width;
    }
}

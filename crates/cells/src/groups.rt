// Words in groups: a list of groups says which words have how many bytes.
ghost use Rattle.std.specs.Prelude.{◌+◌, ◌*◌, ◌≤◌, length};
ghost use Rattle.cells.specs.Cells.{Wrote, Room};
ghost use Rattle.cells.specs.Groups.{
  group_end,
  group_bytes,
  Cut,
  groups_bytes,
  groups_length,
  GroupRead,
  GroupsRead,
};

use crate::{get_words, put_words};

// So many words from word `from` on, each of so many bytes.
#[derive(Clone, Copy)]
pub struct Group {
    pub width: usize,
    pub from: usize,
    pub count: usize,
}

// The group's words, of w, are written at `at`.
fn put_group(out: &mut [u8], at: usize, g: Group, w: &[u64]) -> usize
    requires end_in_bounds { group_end g ≤ length w.now }
    requires room { Room (group_bytes w.now g) out.old at }
    ensures { Wrote (group_bytes w.now g) out.old at out.new result }
{
    put_words(out, at, g.width, &w[g.from..g.from + g.count])
}

// They are read at `at`.
fn get_group(src: &[u8], at: usize, g: Group, w: &mut [u64]) -> usize
    requires end_in_bounds { (group_end g ≤ length w.old) × (g.width ≤ 8) }
    requires count_in_bounds { at + g.count * g.width ≤ length src.now }
    ensures { GroupRead g src.now at w.old w.new result }
{
    get_words(src, at, g.width, &mut w[g.from..g.from + g.count])
}

// The groups of the words w are written at `at`. The place behind them is answered.
pub fn put_groups(out: &mut [u8], at: usize, groups: &[Group], w: &[u64]) -> usize
    requires cut { Cut 0 (length w.now) groups.now }
    requires room { Room (groups_bytes groups.now w.now) out.old at }
    ensures { Wrote (groups_bytes groups.now w.now) out.old at out.new result }
{
    let mut p = at;
    for g in groups {
        p = put_group(out, p, *g, w);
    }
    p
}

// They are read at `at` into the words w, of which those in no group stay. The place behind them is
// answered.
pub fn get_groups(src: &[u8], at: usize, groups: &[Group], w: &mut [u64]) -> usize
    requires cut { Cut 0 (length w.old) groups.now }
    requires groups_in_bounds { at + groups_length groups.now ≤ length src.now }
    ensures { GroupsRead groups.now src.now at w.old w.new result }
{
    let mut p = at;
    for g in groups {
        p = get_group(src, p, *g, w);
    }
    p
}

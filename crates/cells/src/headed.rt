// A head in groups, and behind it as many records as one of its words says.
ghost use Rattle.std.specs.Prelude.{◌+◌, ◌^◌, ◌≤◌, ◌<◌, length, get_or};
ghost use Rattle.cells.specs.Cells.{Wrote, Room};
ghost use Rattle.cells.specs.Groups.{
  Cut,
  groups_length,
  headed_bytes,
  RecordsThere,
  HeadedRead,
};

use crate::{Group, get_groups, get_words, put_groups, put_words};

// The words of `row` are written at `at`: its head, and the records behind it.
pub fn put_headed(
    out: &mut [u8],
    at: usize,
    groups: &[Group],
    head: usize,
    count: usize,
    row: &[u64],
) -> usize
    requires cut { Cut 0 (length row.now) groups.now }
    requires count_in_bounds { (count < length row.now)
        × (head + get_or row.now count 0 ≤ length row.now) }
    requires room { Room (headed_bytes groups.now head count row.now) out.old at }
    ensures { Wrote (headed_bytes groups.now head count row.now)
        out.old at out.new result }
{
    let p = put_groups(out, at, groups, row);
    let held = words::size(row[count]);
    put_words(out, p, 8, &row[head..head + held])
}

// They are read at `at` into the words of `row`. A word of the head that is in no group becomes
// `rest`.
pub fn get_headed(
    src: &[u8],
    at: usize,
    groups: &[Group],
    head: usize,
    count: usize,
    rest: u64,
    row: &mut [u64],
) -> usize
    requires cut { Cut 0 head groups.now }
    requires count_lt_head { (count < head) × (head ≤ length row.old) × (length row.old < 2 ^ 64) }
    requires groups_in_bounds { at + groups_length groups.now ≤ length src.now }
    requires records_there { RecordsThere groups.now head count rest src.now at
        (length row.old) }
    ensures { HeadedRead groups.now head count rest src.now at
        row.old row.new result }
{
    words::fill(&mut row[..head], rest);
    let p = get_groups(src, at, groups, &mut row[..head]);
    let held = words::size(row[count]);
    get_words(src, p, 8, &mut row[head..head + held])
}

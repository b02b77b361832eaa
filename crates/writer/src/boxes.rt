// The boxes' bodies, and their entries in the table of contents.
ghost use Rattle.std.specs.Prelude.{◌≡◌, [], ◌∷◌, map, ◌<◌, length};
ghost use Rattle.memory.specs.After.{RowsLent};
ghost use Rattle.cells.specs.Cells.{chain, Room, Wrote};
ghost use Rattle.image.specs.Image.{box_body};
ghost use Rattle.writer.specs.Bodies.{boxes_in, box_at, Short, Space, Entered};

use crate::entry;
use rules::model::Setting;
use words::size;

fn box_length(site: &[u64], s: Setting, i: u32) -> usize
    requires { RowsLent s site.now × (i < s.n) }
    ensures { result ≡ length (box_body s.n (box_at s site.now i)) }
{
    let row = memory::row_of(site, s, i + 1);
    image::box_head_bytes(s.n as usize) + 8 * size(row[row::COUNT])
}

// How long the bodies of boxes 1 to n are together.
pub fn boxes_length(site: &[u64], s: Setting) -> usize
    requires rows_lent { RowsLent s site.now }
    requires short { Short (chain (box_body s.n) (boxes_in s site.now)) }
    ensures { result ≡ length (chain (box_body s.n) (boxes_in s site.now)) }
{
    let mut total = 0;
    for i in 0..s.n {
        total += box_length(site, s, i);
    }
    total
}

fn write_box(out: &mut [u8], at: usize, site: &[u64], s: Setting, i: u32) -> usize
    requires rows_lent { RowsLent s site.now × (i < s.n) }
    requires room { Room (box_body s.n (box_at s site.now i)) out.old at }
    ensures { Wrote (box_body s.n (box_at s site.now i))
        out.old at out.new result }
{
    let groups = image::box_groups(s.n as usize);
    let row = memory::row_of(site, s, i + 1);
    cells::put_headed(out, at, &groups, row::HEAD, row::COUNT, row)
}

// A box's body at `at`, its entry at k.
fn enter_box(out: &mut [u8], k: usize, at: usize, site: &[u64], s: Setting, i: u32) -> usize
    requires rows_lent { RowsLent s site.now × (i < s.n) }
    requires space { Space (box_body s.n (box_at s site.now i) ∷ []) out.old k at }
    ensures { Entered (box_body s.n (box_at s site.now i) ∷ [])
        out.old k at out.new result }
{
    let end = write_box(out, at, site, s, i);
    entry::enter(out, k, at, end);
    end
}

// The bodies of boxes 1 to n from `at` on, their entries from k on.
pub fn write_boxes(out: &mut [u8], k: usize, at: usize, site: &[u64], s: Setting) -> usize
    requires rows_lent { RowsLent s site.now }
    requires space { Space (map (box_body s.n) (boxes_in s site.now)) out.old k at }
    ensures { Entered (map (box_body s.n) (boxes_in s site.now))
        out.old k at out.new result }
{
    let mut p = at;
    for i in 0..s.n {
        p = enter_box(out, k + 8 * i as usize, p, site, s, i);
    }
    p
}

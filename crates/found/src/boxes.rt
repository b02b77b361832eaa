// A box's body: the words of its head, then its records.
ghost use Rattle.std.specs.Prelude.{◌≡◌, ◌≤◌};
ghost use Rattle.rules.specs.Sizes.{most_boxes};
ghost use Rattle.found.specs.Stands.{missing};
ghost use Rattle.found.specs.Found.{box_found, held_found, records_found};
ghost use Rattle.found.specs.Near.{farthest};

use crate::Spot;
use crate::general::{ended, unless};
use crate::records::leading;
use crate::stands::{number_at, read_groups};
use words::size;

// Of count records from `at` on, the first m are proper.
fn records_found(body: &[u8], at: usize, first: u64, count: u64, m: u64) -> Result<(), Spot>
    requires { (at ≤ farthest) × (first ≤ missing) × (count ≤ missing) × (m ≤ count) }
    ensures { result ≡ records_found body.now at first count m }
{
    let behind = ended(body, at + 8 * size(count));
    unless(count <= m, Spot::Record(first + m), behind)
}

// The records of a box whose head is by form.
fn held_found(body: &[u8], at: usize) -> Result<(), Spot>
    requires { (4 ≤ at) × (at ≤ 200) }
    ensures { result ≡ held_found body.now at }
{
    let first = number_at(body, 4 * row::FIRST);
    let count = number_at(body, at - 4);
    let m = leading(body, at, count);
    records_found(body, at, first, count, m)
}

// Box b of n.
pub fn box_found(body: &[u8], n: u32, j: u32, b: u32) -> Result<(), Spot>
    requires { n ≤ most_boxes }
    ensures { result ≡ box_found n j b body.now }
{
    let peers = n as usize;
    let at = image::box_head_bytes(peers);
    let groups = image::box_groups(peers);
    let mut w = [row::UNKNOWN; row::HEAD];
    read_groups(body, 0, &groups, &mut w);
    let f = row::head_fault(&w, n, j, b);
    match f {
        None => held_found(body, at),
        Some(x) => Err(Spot::At(x)),
    }
}

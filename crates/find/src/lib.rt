// Which load has this frame (Q-5): asked of a box of a site, answered by the index of its row.
#![tactic(auto)]

ghost use Rattle.std.specs.Prelude.{◌≡◌, true};
ghost use Rattle.memory.specs.Memory.{site_of, memory_form};
ghost use Rattle.find.specs.Find.{found_as, find as find_of, find_on};

use rules::model::Refusal;
use rules::ranges;

// Numbers begin at 1: 0 is none.
fn found_as(k: u32) -> Option<u32>
    ensures { result ≡ found_as k }
{
    if k == 0 {
        return None;
    }
    Some(k)
}

// The load of box c with this left frame, if one has it, by words by form.
pub fn find_formed(site: &[u64], links: &[u64], c: u32, left: u32) -> Result<Option<u32>, Refusal>
    requires { memory_form site.now links.now ≡ true }
    ensures { result ≡ find_of (site_of site.now links.now) c left }
{
    let s = memory::setting_of(site, c);
    if !ranges::is_box(s.n, c) {
        return Err(Refusal::Box);
    }
    if left == 0 {
        return Err(Refusal::Frame);
    }
    let row = memory::row_of(site, s, c);
    Ok(found_as(row::find(row, s, left)))
}

// The load of box c with this left frame, by any words.
pub fn find(site: &[u64], links: &[u64], c: u32, left: u32) -> Result<Option<u32>, Refusal>
    ensures { result ≡ find_on site.now links.now c left }
{
    if memory::is_by_form(site, links) {
        return find_formed(site, links, c, left);
    }
    Err(Refusal::Form)
}

// The agreed records that a box keeps, handed out of a site's words without copying: the weigh
// house's lists (Q-14).
#![tactic(auto)]

ghost use Rattle.std.specs.Prelude.{◌≡◌, true};
ghost use Rattle.row.specs.Row.{box_of};
ghost use Rattle.row.specs.Lent.{RowByForm};
ghost use Rattle.memory.specs.Memory.{memory_form};
ghost use Rattle.agreed.specs.Agreed.{agreed_count, agreed_in, agreed_on, records_on};

use rules::model::{Refusal, Setting};
use rules::ranges;

// The first number that a box keeps, the word of `site` at which its record stands, and how many
// records are agreed from it on.
#[derive(Clone, Copy)]
pub struct Listed {
    pub first: u64,
    pub place: usize,
    pub count: usize,
}

// How many numbers the box of a row keeps as agreed.
fn agreed_count(row: &[u64], s: Setting) -> usize
    requires { RowByForm s row.now }
    ensures { result ≡ agreed_count (box_of s.n row.now) }
{
    let after = row[row::LAST] + 1;
    words::size(after - row[row::FIRST])
}

// Where the agreed records of box c stand, by words by form.
fn agreed_formed(site: &[u64], links: &[u64], c: u32) -> Result<Listed, Refusal>
    requires { memory_form site.now links.now ≡ true }
    ensures { result ≡ agreed_in site.now links.now c }
{
    let s = memory::setting_of(site, c);
    if !ranges::is_box(s.n, c) {
        return Err(Refusal::Box);
    }
    let start = memory::row_start(s, c);
    let row = memory::row_of(site, s, c);
    let count = agreed_count(row, s);
    Ok(Listed {
        first: row[row::FIRST],
        place: start + row::HEAD,
        count,
    })
}

// Where the agreed records of box c stand, by any words.
pub fn agreed_at(site: &[u64], links: &[u64], c: u32) -> Result<Listed, Refusal>
    ensures { result ≡ agreed_on site.now links.now c }
{
    if memory::is_by_form(site, links) {
        return agreed_formed(site, links, c);
    }
    Err(Refusal::Form)
}

// The agreed records of box c: that part of the words itself, and none where it is refused.
pub fn agreed_records<'a>(site: &'a [u64], links: &[u64], c: u32) -> &'a [u64]
    ensures { result.now ≡ records_on site.now links.now c }
{
    match agreed_at(site, links, c) {
        Ok(l) => &site[l.place..l.place + l.count],
        Err(_) => &site[0..0],
    }
}

// The longer of two load lists, and where a box's list stands in its site's words (Q-14).
ghost use Rattle.std.specs.Prelude.{◌≡◌};
ghost use Rattle.longer.specs.Longer.{longer_of, longer_number};
ghost use Rattle.agreed.specs.Agreed.{agreed_on};
ghost use Rattle.journal.specs.Longer.{AgreedAnswered};

use crate::answered::{number_of, or_before};
use agreed::Listed;

pub fn journal_longer(first: &[u64], second: &[u64]) -> u32
    ensures { result ≡ longer_number (longer_of first.now second.now) }
{
    longer::longer_number(longer::longer_is(first, second))
}

pub fn journal_agreed(
    site: &[u64],
    links: &[u64],
    c: u32,
    first: &mut u64,
    at: &mut usize,
    count: &mut usize,
) -> u32
    ensures { AgreedAnswered (agreed_on site.now links.now c)
        first.old at.old count.old
        first.new at.new count.new result }
{
    let a = agreed::agreed_at(site, links, c);
    let listed = or_before(
        a,
        Listed {
            first: *first,
            place: *at,
            count: *count,
        },
    );
    *first = listed.first;
    *at = listed.place;
    *count = listed.count;
    number_of(a)
}

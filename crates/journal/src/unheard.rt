// Which present boxes have not answered the lease of a leader.
ghost use Rattle.site.specs.Entries.{unheard_on};
ghost use Rattle.own.specs.Entry.{unheard_on as own_unheard_on};
ghost use Rattle.journal.specs.Numbered.{setting_of};
ghost use Rattle.journal.specs.Unheard.{UnheardAnswered};

use crate::answered::{number_of, or_before};
use rules::model::Setting;

pub fn journal_unheard(site: &[u64], links: &[u64], c: u32, set: &mut u32) -> u32
    ensures { UnheardAnswered (unheard_on site.now links.now c)
        set.old set.new result }
{
    let u = site::unheard(site, links, c);
    *set = or_before(u, *set);
    number_of(u)
}

pub fn journal_own_unheard(
    row: &[u64],
    set: &mut u32,
    n: u32,
    j: u32,
    l: u32,
    epoch: u32,
    present: u32,
    me: u32,
) -> u32
    ensures { UnheardAnswered (own_unheard_on (setting_of n j l epoch present me) row.now)
        set.old set.new result }
{
    let s = Setting {
        n,
        j,
        l,
        epoch,
        present,
        me,
    };
    let told = own::unheard(row, s);
    *set = or_before(told, *set);
    number_of(told)
}

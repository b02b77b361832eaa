// A box by itself is started, told of an election, and asked what it holds.
ghost use Rattle.std.specs.Prelude.{◌≡◌};
ghost use Rattle.rules.specs.Numbers.{answer_number};
ghost use Rattle.own.specs.Entry.{fresh_on, elected_on, holds_on};
ghost use Rattle.journal.specs.Numbered.{ToldAlone, setting_of};

use rules::model::Setting;
use rules::numbers::answer_number;

pub fn journal_own_fresh(row: &mut [u64], n: u32, j: u32, l: u32) -> u32
    ensures { ToldAlone n j (fresh_on n j l row.old)
        row.old row.new result }
{
    answer_number(own::fresh(row, n, j, l))
}

// Box c is elected; what the box is told of its site is what there is to know after it.
pub fn journal_own_elected(
    row: &mut [u64],
    n: u32,
    j: u32,
    l: u32,
    epoch: u32,
    present: u32,
    me: u32,
    c: u32,
) -> u32
    ensures { ToldAlone n j (elected_on (setting_of n j l epoch present me) row.old c)
        row.old row.new result }
{
    let s = Setting {
        n,
        j,
        l,
        epoch,
        present,
        me,
    };
    answer_number(own::elected(row, s, c))
}

pub fn journal_own_holds(
    row: &[u64],
    n: u32,
    j: u32,
    l: u32,
    epoch: u32,
    present: u32,
    me: u32,
    k: u32,
    left: u32,
    right: u32,
) -> u32
    ensures { result ≡ answer_number (holds_on (setting_of n j l epoch present me) row.now
        k left right) }
{
    let s = Setting {
        n,
        j,
        l,
        epoch,
        present,
        me,
    };
    answer_number(own::holds(row, s, k, left, right))
}

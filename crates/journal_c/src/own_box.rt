// A box by itself: its row, what it is told of its site, an event or a mail in; the row, a letter
// and the set that it goes to out.
ghost use Rattle.rules.specs.declared.model.Act.{Act};
ghost use Rattle.own.specs.Entry.{act_on, mail_on};
ghost use Rattle.journal.specs.Numbered.{Alone, setting_of};

#[unsafe(no_mangle)]
pub extern "C" fn journal_own_recover(
    row: &mut [u64],
    out: &mut [u64],
    to: &mut u32,
    n: u32,
    j: u32,
    l: u32,
    epoch: u32,
    present: u32,
    me: u32,
) -> u32
    ensures { Alone (setting_of n j l epoch present me)
        (act_on (setting_of n j l epoch present me) row.old Act.Recover
        out.old)
        row.old out.old row.new out.new
        to.old to.new result }
{
    journal::journal_own_recover(row, out, to, n, j, l, epoch, present, me)
}

#[unsafe(no_mangle)]
pub extern "C" fn journal_own_collect(
    row: &mut [u64],
    out: &mut [u64],
    to: &mut u32,
    n: u32,
    j: u32,
    l: u32,
    epoch: u32,
    present: u32,
    me: u32,
) -> u32
    ensures { Alone (setting_of n j l epoch present me)
        (act_on (setting_of n j l epoch present me) row.old Act.Collect
        out.old)
        row.old out.old row.new out.new
        to.old to.new result }
{
    journal::journal_own_collect(row, out, to, n, j, l, epoch, present, me)
}

#[unsafe(no_mangle)]
pub extern "C" fn journal_own_ready(
    row: &mut [u64],
    out: &mut [u64],
    to: &mut u32,
    n: u32,
    j: u32,
    l: u32,
    epoch: u32,
    present: u32,
    me: u32,
) -> u32
    ensures { Alone (setting_of n j l epoch present me)
        (act_on (setting_of n j l epoch present me) row.old Act.Ready
        out.old)
        row.old out.old row.new out.new
        to.old to.new result }
{
    journal::journal_own_ready(row, out, to, n, j, l, epoch, present, me)
}

#[unsafe(no_mangle)]
pub extern "C" fn journal_own_offer(
    row: &mut [u64],
    out: &mut [u64],
    to: &mut u32,
    n: u32,
    j: u32,
    l: u32,
    epoch: u32,
    present: u32,
    me: u32,
    left: u32,
    right: u32,
) -> u32
    ensures { Alone (setting_of n j l epoch present me)
        (act_on (setting_of n j l epoch present me) row.old (Act.Offer left right)
        out.old)
        row.old out.old row.new out.new
        to.old to.new result }
{
    journal::journal_own_offer(row, out, to, n, j, l, epoch, present, me, left, right)
}

#[unsafe(no_mangle)]
pub extern "C" fn journal_own_propose(
    row: &mut [u64],
    out: &mut [u64],
    to: &mut u32,
    n: u32,
    j: u32,
    l: u32,
    epoch: u32,
    present: u32,
    me: u32,
) -> u32
    ensures { Alone (setting_of n j l epoch present me)
        (act_on (setting_of n j l epoch present me) row.old Act.Propose
        out.old)
        row.old out.old row.new out.new
        to.old to.new result }
{
    journal::journal_own_propose(row, out, to, n, j, l, epoch, present, me)
}

#[unsafe(no_mangle)]
pub extern "C" fn journal_own_agree(
    row: &mut [u64],
    out: &mut [u64],
    to: &mut u32,
    n: u32,
    j: u32,
    l: u32,
    epoch: u32,
    present: u32,
    me: u32,
) -> u32
    ensures { Alone (setting_of n j l epoch present me)
        (act_on (setting_of n j l epoch present me) row.old Act.Agree
        out.old)
        row.old out.old row.new out.new
        to.old to.new result }
{
    journal::journal_own_agree(row, out, to, n, j, l, epoch, present, me)
}

#[unsafe(no_mangle)]
pub extern "C" fn journal_own_finish(
    row: &mut [u64],
    out: &mut [u64],
    to: &mut u32,
    n: u32,
    j: u32,
    l: u32,
    epoch: u32,
    present: u32,
    me: u32,
) -> u32
    ensures { Alone (setting_of n j l epoch present me)
        (act_on (setting_of n j l epoch present me) row.old Act.Finish
        out.old)
        row.old out.old row.new out.new
        to.old to.new result }
{
    journal::journal_own_finish(row, out, to, n, j, l, epoch, present, me)
}

#[unsafe(no_mangle)]
pub extern "C" fn journal_own_heard(
    row: &mut [u64],
    out: &mut [u64],
    to: &mut u32,
    n: u32,
    j: u32,
    l: u32,
    epoch: u32,
    present: u32,
    me: u32,
) -> u32
    ensures { Alone (setting_of n j l epoch present me)
        (act_on (setting_of n j l epoch present me) row.old Act.Heard
        out.old)
        row.old out.old row.new out.new
        to.old to.new result }
{
    journal::journal_own_heard(row, out, to, n, j, l, epoch, present, me)
}

#[unsafe(no_mangle)]
pub extern "C" fn journal_own_trim(
    row: &mut [u64],
    out: &mut [u64],
    to: &mut u32,
    n: u32,
    j: u32,
    l: u32,
    epoch: u32,
    present: u32,
    me: u32,
    k: u32,
) -> u32
    ensures { Alone (setting_of n j l epoch present me)
        (act_on (setting_of n j l epoch present me) row.old (Act.Trim k)
        out.old)
        row.old out.old row.new out.new
        to.old to.new result }
{
    journal::journal_own_trim(row, out, to, n, j, l, epoch, present, me, k)
}

#[unsafe(no_mangle)]
pub extern "C" fn journal_own_mail(
    row: &mut [u64],
    letter: &[u64],
    out: &mut [u64],
    to: &mut u32,
    n: u32,
    j: u32,
    l: u32,
    epoch: u32,
    present: u32,
    me: u32,
    sender: u32,
) -> u32
    ensures { Alone (setting_of n j l epoch present me)
        (mail_on (setting_of n j l epoch present me) row.old sender letter.now
        out.old)
        row.old out.old row.new out.new
        to.old to.new result }
{
    journal::journal_own_mail(row, letter, out, to, n, j, l, epoch, present, me, sender)
}

// A box by itself: its row, what it is told of its site, an event or a mail in; the row, a letter
// and the set that it goes to out.
ghost use Rattle.std.specs.Prelude.{◌≡◌, cond};
ghost use Rattle.rules.specs.declared.model.Act.{Act};
ghost use Rattle.own.specs.Entry.{act_on, mail_on};
ghost use Rattle.journal.specs.Numbered.{Alone, setting_of};

use rules::answers::is_refusal;
use rules::model::{Act, Setting};
use rules::numbers::answer_number;

fn unless(refused: bool, before: u32, set: u32) -> u32
    ensures { result ≡ cond refused before set }
{
    if refused { before } else { set }
}

fn acted(row: &mut [u64], out: &mut [u64], to: &mut u32, s: Setting, a: Act) -> u32
    ensures { Alone s (act_on s row.old a out.old)
        row.old out.old row.new out.new
        to.old to.new result }
{
    let sent = own::act(row, out, s, a);
    let answer = sent.answer;
    let set = sent.to;
    *to = unless(is_refusal(answer), *to, set);
    answer_number(answer)
}

fn handed(
    row: &mut [u64],
    letter: &[u64],
    out: &mut [u64],
    to: &mut u32,
    s: Setting,
    sender: u32,
) -> u32
    ensures { Alone s (mail_on s row.old sender letter.now out.old)
        row.old out.old row.new out.new
        to.old to.new result }
{
    let sent = own::mail(row, letter, out, s, sender);
    let answer = sent.answer;
    let set = sent.to;
    *to = unless(is_refusal(answer), *to, set);
    answer_number(answer)
}

pub fn journal_own_recover(
    row: &mut [u64],
    out: &mut [u64],
    to: &mut u32,
    n: u32,
    j: u32,
    l: u32,
    epoch: u32,
    present: u32,
    me: u32,
) -> u32
    ensures { Alone (setting_of n j l epoch present me)
        (act_on (setting_of n j l epoch present me) row.old Act.Recover
        out.old)
        row.old out.old row.new out.new
        to.old to.new result }
{
    let s = Setting {
        n,
        j,
        l,
        epoch,
        present,
        me,
    };
    acted(row, out, to, s, Act::Recover)
}

pub fn journal_own_collect(
    row: &mut [u64],
    out: &mut [u64],
    to: &mut u32,
    n: u32,
    j: u32,
    l: u32,
    epoch: u32,
    present: u32,
    me: u32,
) -> u32
    ensures { Alone (setting_of n j l epoch present me)
        (act_on (setting_of n j l epoch present me) row.old Act.Collect
        out.old)
        row.old out.old row.new out.new
        to.old to.new result }
{
    let s = Setting {
        n,
        j,
        l,
        epoch,
        present,
        me,
    };
    acted(row, out, to, s, Act::Collect)
}

pub fn journal_own_ready(
    row: &mut [u64],
    out: &mut [u64],
    to: &mut u32,
    n: u32,
    j: u32,
    l: u32,
    epoch: u32,
    present: u32,
    me: u32,
) -> u32
    ensures { Alone (setting_of n j l epoch present me)
        (act_on (setting_of n j l epoch present me) row.old Act.Ready
        out.old)
        row.old out.old row.new out.new
        to.old to.new result }
{
    let s = Setting {
        n,
        j,
        l,
        epoch,
        present,
        me,
    };
    acted(row, out, to, s, Act::Ready)
}

pub fn journal_own_offer(
    row: &mut [u64],
    out: &mut [u64],
    to: &mut u32,
    n: u32,
    j: u32,
    l: u32,
    epoch: u32,
    present: u32,
    me: u32,
    left: u32,
    right: u32,
) -> u32
    ensures { Alone (setting_of n j l epoch present me)
        (act_on (setting_of n j l epoch present me) row.old (Act.Offer left right)
        out.old)
        row.old out.old row.new out.new
        to.old to.new result }
{
    let s = Setting {
        n,
        j,
        l,
        epoch,
        present,
        me,
    };
    acted(row, out, to, s, Act::Offer(left, right))
}

pub fn journal_own_propose(
    row: &mut [u64],
    out: &mut [u64],
    to: &mut u32,
    n: u32,
    j: u32,
    l: u32,
    epoch: u32,
    present: u32,
    me: u32,
) -> u32
    ensures { Alone (setting_of n j l epoch present me)
        (act_on (setting_of n j l epoch present me) row.old Act.Propose
        out.old)
        row.old out.old row.new out.new
        to.old to.new result }
{
    let s = Setting {
        n,
        j,
        l,
        epoch,
        present,
        me,
    };
    acted(row, out, to, s, Act::Propose)
}

pub fn journal_own_agree(
    row: &mut [u64],
    out: &mut [u64],
    to: &mut u32,
    n: u32,
    j: u32,
    l: u32,
    epoch: u32,
    present: u32,
    me: u32,
) -> u32
    ensures { Alone (setting_of n j l epoch present me)
        (act_on (setting_of n j l epoch present me) row.old Act.Agree
        out.old)
        row.old out.old row.new out.new
        to.old to.new result }
{
    let s = Setting {
        n,
        j,
        l,
        epoch,
        present,
        me,
    };
    acted(row, out, to, s, Act::Agree)
}

pub fn journal_own_finish(
    row: &mut [u64],
    out: &mut [u64],
    to: &mut u32,
    n: u32,
    j: u32,
    l: u32,
    epoch: u32,
    present: u32,
    me: u32,
) -> u32
    ensures { Alone (setting_of n j l epoch present me)
        (act_on (setting_of n j l epoch present me) row.old Act.Finish
        out.old)
        row.old out.old row.new out.new
        to.old to.new result }
{
    let s = Setting {
        n,
        j,
        l,
        epoch,
        present,
        me,
    };
    acted(row, out, to, s, Act::Finish)
}

pub fn journal_own_heard(
    row: &mut [u64],
    out: &mut [u64],
    to: &mut u32,
    n: u32,
    j: u32,
    l: u32,
    epoch: u32,
    present: u32,
    me: u32,
) -> u32
    ensures { Alone (setting_of n j l epoch present me)
        (act_on (setting_of n j l epoch present me) row.old Act.Heard
        out.old)
        row.old out.old row.new out.new
        to.old to.new result }
{
    let s = Setting {
        n,
        j,
        l,
        epoch,
        present,
        me,
    };
    acted(row, out, to, s, Act::Heard)
}

pub fn journal_own_trim(
    row: &mut [u64],
    out: &mut [u64],
    to: &mut u32,
    n: u32,
    j: u32,
    l: u32,
    epoch: u32,
    present: u32,
    me: u32,
    k: u32,
) -> u32
    ensures { Alone (setting_of n j l epoch present me)
        (act_on (setting_of n j l epoch present me) row.old (Act.Trim k)
        out.old)
        row.old out.old row.new out.new
        to.old to.new result }
{
    let s = Setting {
        n,
        j,
        l,
        epoch,
        present,
        me,
    };
    acted(row, out, to, s, Act::Trim(k))
}

pub fn journal_own_mail(
    row: &mut [u64],
    letter: &[u64],
    out: &mut [u64],
    to: &mut u32,
    n: u32,
    j: u32,
    l: u32,
    epoch: u32,
    present: u32,
    me: u32,
    sender: u32,
) -> u32
    ensures { Alone (setting_of n j l epoch present me)
        (mail_on (setting_of n j l epoch present me) row.old sender letter.now
        out.old)
        row.old out.old row.new out.new
        to.old to.new result }
{
    let s = Setting {
        n,
        j,
        l,
        epoch,
        present,
        me,
    };
    handed(row, letter, out, to, s, sender)
}

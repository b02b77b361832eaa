// The pairing desk (Q-13): its calls with their answers as numbers.
ghost use Rattle.desk.specs.Desk.{given, withdrawn};
ghost use Rattle.desk.specs.declared.answers.Side.{Side};
ghost use Rattle.journal.specs.Desk.{DeskAnswered, PairAnswered};

use crate::answered::or_before;
use desk::answers;
use desk::answers::Side;

pub fn journal_desk_left(desk: &mut [u64], frame: u32, tick: u32) -> u32
    ensures { DeskAnswered (given Side.Left frame tick desk.old) desk.new result }
{
    let t = desk::give(desk, Side::Left, frame, tick);
    answers::number_of(t)
}

pub fn journal_desk_right(desk: &mut [u64], frame: u32, tick: u32) -> u32
    ensures { DeskAnswered (given Side.Right frame tick desk.old) desk.new result }
{
    let t = desk::give(desk, Side::Right, frame, tick);
    answers::number_of(t)
}

pub fn journal_desk_withdraw_left(desk: &mut [u64], frame: u32) -> u32
    ensures { DeskAnswered (withdrawn Side.Left frame desk.old) desk.new result }
{
    let t = desk::withdraw(desk, Side::Left, frame);
    answers::number_of(t)
}

pub fn journal_desk_withdraw_right(desk: &mut [u64], frame: u32) -> u32
    ensures { DeskAnswered (withdrawn Side.Right frame desk.old) desk.new result }
{
    let t = desk::withdraw(desk, Side::Right, frame);
    answers::number_of(t)
}

pub fn journal_desk_pair(
    desk: &mut [u64],
    site: &mut [u64],
    links: &mut [u64],
    left: u32,
    right: &mut u32,
) -> u32
    ensures { PairAnswered left desk.old site.old links.old
        desk.new site.new links.new
        right.old right.new result }
{
    let p = desk::pair(desk, site, links, left);
    *right = or_before(p, *right);
    answers::number_of(p)
}

// The pairing desk (Q-13): its calls with their answers as numbers.
ghost use Rattle.desk.specs.Desk.{given, withdrawn};
ghost use Rattle.desk.specs.declared.answers.Side.{Side};
ghost use Rattle.journal.specs.Desk.{DeskAnswered, PairAnswered};

#[unsafe(no_mangle)]
pub extern "C" fn journal_desk_left(desk: &mut [u64], frame: u32, tick: u32) -> u32
    ensures { DeskAnswered (given Side.Left frame tick desk.old) desk.new result }
{
    journal::journal_desk_left(desk, frame, tick)
}

#[unsafe(no_mangle)]
pub extern "C" fn journal_desk_right(desk: &mut [u64], frame: u32, tick: u32) -> u32
    ensures { DeskAnswered (given Side.Right frame tick desk.old) desk.new result }
{
    journal::journal_desk_right(desk, frame, tick)
}

#[unsafe(no_mangle)]
pub extern "C" fn journal_desk_withdraw_left(desk: &mut [u64], frame: u32) -> u32
    ensures { DeskAnswered (withdrawn Side.Left frame desk.old) desk.new result }
{
    journal::journal_desk_withdraw_left(desk, frame)
}

#[unsafe(no_mangle)]
pub extern "C" fn journal_desk_withdraw_right(desk: &mut [u64], frame: u32) -> u32
    ensures { DeskAnswered (withdrawn Side.Right frame desk.old) desk.new result }
{
    journal::journal_desk_withdraw_right(desk, frame)
}

#[unsafe(no_mangle)]
pub extern "C" fn journal_desk_pair(
    desk: &mut [u64],
    site: &mut [u64],
    links: &mut [u64],
    left: u32,
    right: &mut u32,
) -> u32
    ensures { PairAnswered left desk.old site.old links.old
        desk.new site.new links.new
        right.old right.new result }
{
    journal::journal_desk_pair(desk, site, links, left, right)
}

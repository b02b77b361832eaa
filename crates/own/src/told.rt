// A box by itself is started, told of an election, and asked what it holds.
ghost use Rattle.std.specs.Prelude.{◌≡◌, cond, ◌≤◌, Err};
ghost use Rattle.rules.specs.Sizes.{most_boxes};
ghost use Rattle.rules.specs.Needs.{ruled};
ghost use Rattle.rules.specs.Own.{told_needs};
ghost use Rattle.own.specs.Entry.{own_box, fresh_on, elected_on, holds_on, Told};
ghost use Rattle.own.specs.Lent.{RowLent, elected_by, passed};

use crate::{judge, used_row};
use rules::model::{Answer, Refusal, Setting};
use rules::{ranges, sets};

// A fresh box in the words of its row, whatever they were.
pub fn fresh(row: &mut [u64], n: u32, j: u32, l: u32) -> Answer
    ensures { Told n j (fresh_on n j l row.old) row.old row.new result }
{
    let end = row::row_width(j);
    if !ranges::are_sizes(n as u64, j as u64, l as u64) {
        return Answer::Refused(Refusal::Sizes);
    }
    if row.len() < end {
        return Answer::Refused(Refusal::Buffer);
    }
    row::fresh(&mut row[0..end], j);
    Answer::Done
}

// 3 and 4, in this order, of what there is to know after an election of c.
fn judge_election(s: Setting, c: u32) -> Result<(), Refusal>
    requires { c ≤ most_boxes }
    ensures { result ≡ ruled Err (told_needs s c) passed }
{
    let majority = s.n / 2 + 1;
    if !sets::is_even(s.epoch) {
        return Err(Refusal::Condition);
    }
    if !sets::has(s.present, c) {
        return Err(Refusal::Condition);
    }
    if majority <= sets::count(s.present) {
        return Ok(());
    }
    Err(Refusal::Majority)
}

// The row holds the box when c is elected, or nothing is done.
fn elect(row: &mut [u64], s: Setting, c: u32) -> Answer
    requires row_lent { RowLent s row.old }
    requires c_le_most_boxes { c ≤ most_boxes }
    ensures { Told s.n s.j (elected_by s (own_box s row.old) c)
        row.old row.new result }
{
    let came = judge_election(s, c);
    match came {
        Err(why) => Answer::Refused(why),
        Ok(()) => {
            let end = row::row_width(s.j);
            row::elect(&mut row[0..end], s, c);
            Answer::Done
        }
    }
}

// Box c is elected; s is what there is to know after it.
pub fn elected(row: &mut [u64], s: Setting, c: u32) -> Answer
    ensures { Told s.n s.j (elected_on s row.old c)
        row.old row.new result }
{
    let nothing = [0; letter::HEAD];
    let numbers = ranges::is_box(s.n, s.me) & ranges::is_box(s.n, c);
    let came = judge(row, &nothing, s, false, numbers);
    match came {
        Err(why) => Answer::Refused(why),
        Ok(()) => elect(row, s, c),
    }
}

fn if_true(agreed: bool) -> Answer
    ensures { result ≡ cond agreed Answer.Done (Answer.Refused Refusal.Untrue) }
{
    if agreed {
        Answer::Done
    } else {
        Answer::Refused(Refusal::Untrue)
    }
}

// Number k is agreed at the box with these frames.
pub fn holds(row: &[u64], s: Setting, k: u32, left: u32, right: u32) -> Answer
    ensures { result ≡ holds_on s row.now k left right }
{
    let nothing = [0; letter::HEAD];
    let came = judge(row, &nothing, s, false, ranges::is_box(s.n, s.me));
    match came {
        Err(why) => Answer::Refused(why),
        Ok(()) => {
            let read = used_row(row, s.j);
            if_true(row::is_agreed(read, s, k, left, right))
        }
    }
}

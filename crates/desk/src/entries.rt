// What a caller calls, on any words.
ghost use Rattle.desk.specs.Desk.{given, withdrawn};
ghost use Rattle.desk.specs.Sides.{SideIs};
ghost use Rattle.desk.specs.Offer.{PairIs};

use crate::answers::{Side, Why};
use crate::{pairs, sides};

// A frame is given in, by side.
pub fn give(desk: &mut [u64], side: Side, frame: u32, tick: u32) -> Result<(), Why>
    ensures { SideIs (given side frame tick desk.old) desk.new result }
{
    if desk.len() < 64 {
        return Err(Why::Words);
    }
    if frame == 0 {
        return Err(Why::Frame);
    }
    match side {
        Side::Left => sides::give_in(&mut desk[0..32], frame, tick),
        Side::Right => sides::give_in(&mut desk[32..64], frame, tick),
    }
}

// A waiting frame is withdrawn, by side and number.
pub fn withdraw(desk: &mut [u64], side: Side, frame: u32) -> Result<(), Why>
    ensures { SideIs (withdrawn side frame desk.old) desk.new result }
{
    if desk.len() < 64 {
        return Err(Why::Words);
    }
    if frame == 0 {
        return Err(Why::Frame);
    }
    match side {
        Side::Left => sides::withdraw_from(&mut desk[0..32], frame),
        Side::Right => sides::withdraw_from(&mut desk[32..64], frame),
    }
}

// A waiting left frame and the nearest right frame are offered to the leader; they leave the desk
// where the offer is accepted.
pub fn pair(desk: &mut [u64], site: &mut [u64], links: &mut [u64], frame: u32) -> Result<u32, Why>
    ensures { PairIs frame desk.old site.old links.old
        desk.new site.new links.new result }
{
    let right = pairs::chosen(desk, frame)?;
    pairs::offer_pair(desk, site, links, frame, right)
}

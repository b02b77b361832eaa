// A pair: it is chosen, offered to the leader, and leaves the desk.
ghost use Rattle.std.specs.Prelude.{◌≡◌, ◌≤◌, true, length, Ok};
ghost use Rattle.desk.specs.Desk.{right_by, chosen_of, leaves};
ghost use Rattle.desk.specs.Offer.{offered_on, is_settled, answer_by, PairIs};
ghost use Rattle.site.specs.Entries.{After};

use crate::answers::Why;
use crate::{near, sides};
use rules::model::{Answer, Call, Refusal};

fn right_by(w: u64) -> Result<u32, Why>
    ensures { result ≡ right_by w }
{
    if w == 0 {
        return Err(Why::Far);
    }
    Ok(sides::frame_of(w))
}

// The right frame that the waiting left one is paired with.
pub(crate) fn chosen(desk: &[u64], frame: u32) -> Result<u32, Why>
    ensures { result ≡ chosen_of frame desk.now }
{
    if desk.len() < 64 {
        return Err(Why::Words);
    }
    if frame == 0 {
        return Err(Why::Frame);
    }
    let place = sides::place_of(&desk[0..32], frame);
    if 32 <= place {
        return Err(Why::Away);
    }
    let tick = sides::tick_of(desk[place]);
    right_by(near::nearest_of(&desk[32..64], tick))
}

fn offered(a: Answer) -> Result<(), Refusal>
    requires { is_settled a ≡ true }
    ensures { answer_by result ≡ a }
{
    match a {
        Answer::Done => Ok(()),
        Answer::Taken => Ok(()),
        Answer::Discarded(_) => Ok(()),
        Answer::Refused(why) => Err(why),
    }
}

// The frames are offered to the leader.
fn offer(site: &mut [u64], links: &mut [u64], left: u32, right: u32) -> Result<(), Refusal>
    ensures { After (offered_on site.old links.old left right)
        site.old links.old site.new links.new
        (answer_by result) }
{
    if !memory::is_by_form(site, links) {
        return Err(Refusal::Form);
    }
    let c = until::leader_formed(site, links);
    if c == 0 {
        return Err(Refusal::Condition);
    }
    offered(site::step_formed(site, links, Call::Offer(c, left, right)))
}

fn leave(desk: &mut [u64], left: u32, right: u32)
    requires { 64 ≤ length desk.old }
    ensures { desk.new ≡ leaves left right desk.old }
{
    let _ = sides::withdraw_from(&mut desk[0..32], left);
    let _ = sides::withdraw_from(&mut desk[32..64], right);
}

// The pair that was chosen is offered, and leaves where that is accepted.
pub(crate) fn offer_pair(
    desk: &mut [u64],
    site: &mut [u64],
    links: &mut [u64],
    left: u32,
    right: u32,
) -> Result<u32, Why>
    requires { chosen_of left desk.old ≡ Ok right }
    ensures { PairIs left desk.old site.old links.old
        desk.new site.new links.new result }
{
    offer(site, links, left, right)?;
    leave(desk, left, right);
    Ok(right)
}

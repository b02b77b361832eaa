// "Mail turns and leader turns call each other while the steps left go down."
ghost use Rattle.std.specs.Prelude.{◌≡◌, true, ◌+◌, ◌<◌, ◌^◌};
ghost use Rattle.wait.specs.Run.{sender_of};
ghost use Rattle.memory.specs.Memory.{site_of, memory_form};
ghost use Rattle.until.specs.Turns.{went_by, Took, RanOn, HandedIs};

use crate::{leader, mail};
use rules::model::{Answer, Call, Refusal};
use wait::model::Run;

// What came of a turn: there was none, it was done or the mail discarded, or it was refused. A
// Result of a flag would not say the three more plainly.
#[derive(Clone, Copy)]
pub enum Went {
    Nothing,
    Played,
    Refused(Refusal),
}

// Heads were handed over: so many steps are left, and so many used.
#[derive(Clone, Copy)]
pub struct Handed {
    pub left: u32,
    pub used: u32,
}

// A mail was refused after so many steps.
#[derive(Clone, Copy)]
pub struct Stop {
    pub why: Refusal,
    pub used: u32,
}

fn came_of(a: Answer) -> Went
    ensures { result ≡ went_by a }
{
    match a {
        Answer::Done => Went::Played,
        Answer::Taken => Went::Played,
        Answer::Discarded(_) => Went::Played,
        Answer::Refused(why) => Went::Refused(why),
    }
}

fn take(site: &mut [u64], links: &mut [u64], next: Option<Call>) -> Went
    requires { memory_form site.old links.old ≡ true }
    ensures { Took result next site.old links.old site.new
        links.new }
{
    match next {
        None => Went::Nothing,
        Some(call) => came_of(site::step_formed(site, links, call)),
    }
}

// Hands over the head of the first link that holds mail, while there is one and steps are left.
fn hand_over(site: &mut [u64], links: &mut [u64], left: u32, used: u32) -> Result<Handed, Stop>
    requires links_value { memory_form site.old links.old ≡ true }
    requires used_bound { left + used < 2 ^ 32 }
    ensures { HandedIs result left used site.old links.old site.new
        links.new }
{
    let end = left + used;
    for u in used..end {
        let next = mail::mail_next(site, links);
        match take(site, links, next) {
            Went::Nothing => return Ok(Handed {
                left: end - u,
                used: u,
            }),
            Went::Played => {}
            Went::Refused(why) => return Err(Stop { why, used: u }),
        }
    }
    Ok(Handed { left: 0, used: end })
}

// The mail turns: some link holds mail.
#[cycle(leader_turns_mail_turns)]
pub(crate) fn mail_turns(site: &mut [u64], links: &mut [u64], left: u32, used: u32) -> Run
    requires links_value { memory_form site.old links.old ≡ true }
    requires used_bound { left + used < 2 ^ 32 }
    requires nonzero { 0 < sender_of (site_of site.old links.old) }
    ensures { RanOn left used site.old links.old site.new
        links.new result }
{
    if left == 0 {
        return Run::Ran(used);
    }
    match hand_over(site, links, left, used) {
        Err(stop) => Run::Stopped(stop.why, stop.used),
        Ok(on) => leader_turns(site, links, on.left, on.used),
    }
}

// The leader's turns: no link holds mail, or no step is left.
#[cycle(leader_turns_mail_turns)]
pub(crate) fn leader_turns(site: &mut [u64], links: &mut [u64], left: u32, used: u32) -> Run
    requires links_value { memory_form site.old links.old ≡ true }
    requires used_bound { left + used < 2 ^ 32 }
    requires links_value_2 { 0 < left → sender_of (site_of site.old links.old) ≡ 0 }
    ensures { RanOn left used site.old links.old site.new
        links.new result }
{
    if left == 0 {
        return Run::Ran(used);
    }
    let next = leader::leader_next(site, links);
    match take(site, links, next) {
        Went::Nothing => Run::Ran(used),
        Went::Refused(why) => Run::Stopped(why, used),
        Went::Played => {
            let l = left - 1;
            let u = used + 1;
            if 0 < mail::sender(site, links) {
                mail_turns(site, links, l, u)
            } else {
                leader_turns(site, links, l, u)
            }
        }
    }
}

// The leader, and the step that it can take.
ghost use Rattle.std.specs.Prelude.{◌≡◌, true};
ghost use Rattle.rules.specs.Site.{is_box};
ghost use Rattle.wait.specs.Run.{is_possible, leader_of, leader_turn};
ghost use Rattle.memory.specs.Memory.{site_of, memory_form};
ghost use Rattle.memory.specs.After.{boxes_of, RowsLent};
ghost use Rattle.until.specs.Turns.{leader_in, act_in, call_in};

use rules::model::{Act, Answer, Call, Phase, Setting};
use rules::numbers;

fn leads(site: &[u64], s: Setting, b: u32) -> bool
    requires rows_lent { RowsLent s site.now }
    requires b_value { is_box s.n b ≡ true }
    ensures { result ≡ (boxes_of s site.now b).head.leads }
{
    let row = memory::row_of(site, s, b);
    row[row::FLAG] == 1
}

// The box that leads, 0 where none does.
fn leader(site: &[u64], s: Setting) -> u32
    requires { RowsLent s site.now }
    ensures { result ≡ leader_in s site.now }
{
    for b in 1..=s.n {
        if leads(site, s, b) {
            return b;
        }
    }
    0
}

// The box that leads by words by form, 0 where none does.
pub fn leader_formed(site: &[u64], links: &[u64]) -> u32
    requires { memory_form site.now links.now ≡ true }
    ensures { result ≡ leader_of (site_of site.now links.now) }
{
    let s = memory::setting_of(site, 0);
    leader(site, s)
}

fn phase(site: &[u64], s: Setting) -> Phase
    requires rows_lent { RowsLent s site.now }
    requires me_value { is_box s.n s.me ≡ true }
    ensures { result ≡ (boxes_of s site.now s.me).head.phase }
{
    let row = memory::row_of(site, s, s.me);
    row::phase_of(row[row::PHASE])
}

fn act_in(p: Phase) -> Act
    ensures { result ≡ act_in p }
{
    match p {
        Phase::Election => Act::Recover,
        Phase::SendCollect => Act::Collect,
        Phase::Collect => Act::Ready,
        Phase::Lease => Act::Heard,
        Phase::Begin => Act::Agree,
        Phase::Commit => Act::Finish,
        Phase::LeaseDone => Act::Heard,
    }
}

fn call_in(p: Phase, c: u32) -> Call
    ensures { result ≡ call_in p c }
{
    match p {
        Phase::Election => Call::Recover(c),
        Phase::SendCollect => Call::Collect(c),
        Phase::Collect => Call::Ready(c),
        Phase::Lease => Call::Heard(c),
        Phase::Begin => Call::Agree(c),
        Phase::Commit => Call::Finish(c),
        Phase::LeaseDone => Call::Heard(c),
    }
}

// Not refused 3.
fn is_possible(a: Answer) -> bool
    ensures { result ≡ is_possible a }
{
    match a {
        Answer::Done => true,
        Answer::Taken => true,
        Answer::Discarded(_) => true,
        Answer::Refused(why) => numbers::refusal_number(why) != 3,
    }
}

// The leader's step that is next, if one is possible.
pub(crate) fn leader_next(site: &[u64], links: &[u64]) -> Option<Call>
    requires { memory_form site.now links.now ≡ true }
    ensures { result ≡ leader_turn (site_of site.now links.now) }
{
    let g = memory::setting_of(site, 0);
    let c = leader(site, g);
    if c == 0 {
        return None;
    }
    let s = memory::setting_of(site, c);
    let p = phase(site, s);
    let t = memory::act_turn(site, s, act_in(p));
    let answer = t.answer;
    if is_possible(answer) {
        return Some(call_in(p, c));
    }
    None
}

// What a caller calls: `run` and `next_turn` take any words. The formed one requires form, for
// programs that have looked once.
ghost use Rattle.std.specs.Prelude.{◌≡◌, true};
ghost use Rattle.wait.specs.Run.{next_turn};
ghost use Rattle.memory.specs.Memory.{site_of, memory_form};
ghost use Rattle.until.specs.Until.{RunAfter, FormedRun, run_on, next_of, next_on};
ghost use Rattle.until.specs.Turns.{RanOn};

use crate::{leader, mail, turns};
use rules::model::{Call, Refusal};
use rules::sets;
use wait::model::Run;

fn go_on(site: &mut [u64], links: &mut [u64], steps: u32) -> Run
    requires { memory_form site.old links.old ≡ true }
    ensures { RanOn steps 0 site.old links.old site.new
        links.new result }
{
    if 0 < mail::sender(site, links) {
        turns::mail_turns(site, links, steps, 0)
    } else {
        turns::leader_turns(site, links, steps, 0)
    }
}

// A run of at most so many steps on words by form; they stay by form.
pub fn run_formed(site: &mut [u64], links: &mut [u64], steps: u32) -> Run
    requires { memory_form site.old links.old ≡ true }
    ensures { FormedRun steps site.old links.old site.new
        links.new result }
{
    let s = memory::setting_of(site, 0);
    if !sets::is_even(s.epoch) {
        return Run::Refused(Refusal::Condition);
    }
    go_on(site, links, steps)
}

// A run of at most so many steps on any words.
pub fn run(site: &mut [u64], links: &mut [u64], steps: u32) -> Run
    ensures { RunAfter (run_on site.old links.old steps)
        site.old links.old site.new links.new result }
{
    if memory::is_by_form(site, links) {
        return run_formed(site, links, steps);
    }
    Run::Refused(Refusal::Form)
}

fn next(site: &[u64], links: &[u64]) -> Option<Call>
    requires { memory_form site.now links.now ≡ true }
    ensures { result ≡ next_turn (site_of site.now links.now) }
{
    match mail::mail_next(site, links) {
        None => leader::leader_next(site, links),
        Some(call) => Some(call),
    }
}

fn next_formed(site: &[u64], links: &[u64]) -> Option<Call>
    requires { memory_form site.now links.now ≡ true }
    ensures { result ≡ next_of (site_of site.now links.now) }
{
    let s = memory::setting_of(site, 0);
    if !sets::is_even(s.epoch) {
        return None;
    }
    next(site, links)
}

// What a run on any words would do next: nothing where it would be refused.
pub fn next_turn(site: &[u64], links: &[u64]) -> Option<Call>
    ensures { result ≡ next_on site.now links.now }
{
    if memory::is_by_form(site, links) {
        return next_formed(site, links);
    }
    None
}

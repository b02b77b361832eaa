// What a caller calls: `step`, `holds` and `unheard` take any words. The formed ones require form,
// for loops that have looked once.
ghost use Rattle.std.specs.Prelude.{◌≡◌, true};
ghost use Rattle.rules.specs.Step.{holds};
ghost use Rattle.rules.specs.Unheard.{unheard};
ghost use Rattle.memory.specs.Memory.{site_of, memory_form};
ghost use Rattle.site.specs.Entries.{After, FormedStep, step_on, holds_on, unheard_on};

use crate::mail::OnLink;
use crate::presence::Presence;
use crate::{elections, mail, presence, turns};
use rules::model::{Act, Answer, Call, Refusal};
use rules::ranges;

// Any call on words by form; they stay by form. For loops that have seen to it once.
// A match and no table: each call carries numbers of its own.
pub fn step_formed(site: &mut [u64], links: &mut [u64], call: Call) -> Answer
    requires { memory_form site.old links.old ≡ true }
    ensures { FormedStep call site.old links.old site.new
        links.new result }
{
    match call {
        Call::Elect(c) => elections::elect(site, links, c),
        Call::Recover(c) => turns::acting(site, links, c, Act::Recover),
        Call::Collect(c) => turns::acting(site, links, c, Act::Collect),
        Call::Ready(c) => turns::acting(site, links, c, Act::Ready),
        Call::Offer(c, left, right) => turns::acting(site, links, c, Act::Offer(left, right)),
        Call::Propose(c) => turns::acting(site, links, c, Act::Propose),
        Call::Agree(c) => turns::acting(site, links, c, Act::Agree),
        Call::Finish(c) => turns::acting(site, links, c, Act::Finish),
        Call::Heard(c) => turns::acting(site, links, c, Act::Heard),
        Call::Trim(c, k) => turns::acting(site, links, c, Act::Trim(k)),
        Call::Stop(c) => presence::change(site, links, c, Presence::Stop),
        Call::Return(c) => presence::change(site, links, c, Presence::Return),
        Call::Timeout(c) => presence::change(site, links, c, Presence::Timeout),
        Call::Lose(a, b) => mail::on_link(site, links, a, b, OnLink::Lose),
        Call::Repeat(a, b) => mail::on_link(site, links, a, b, OnLink::Repeat),
        Call::Deliver(a, b) => mail::on_link(site, links, a, b, OnLink::Deliver),
    }
}

// Number k is agreed at box c with these frames, by words by form.
pub fn holds_formed(site: &[u64], links: &[u64], c: u32, k: u32, left: u32, right: u32) -> Answer
    requires { memory_form site.now links.now ≡ true }
    ensures { result ≡ holds (site_of site.now links.now) c k left right }
{
    let s = memory::setting_of(site, c);
    if !ranges::is_box(s.n, c) {
        return Answer::Refused(Refusal::Box);
    }
    let row = memory::row_of(site, s, c);
    if row::is_agreed(row, s, k, left, right) {
        return Answer::Done;
    }
    Answer::Refused(Refusal::Untrue)
}

// Which present boxes have not answered the lease of box c, by words by form.
pub fn unheard_formed(site: &[u64], links: &[u64], c: u32) -> Result<u32, Refusal>
    requires { memory_form site.now links.now ≡ true }
    ensures { result ≡ unheard (site_of site.now links.now) c }
{
    let s = memory::setting_of(site, c);
    if !ranges::is_box(s.n, c) {
        return Err(Refusal::Box);
    }
    let b = row::load(memory::row_of(site, s, c), s.n);
    b.unheard(s)
}

// Any call on any words.
// Not one function with `until::run` over a closure: what each says of words that are not by form
// is an answer of another type, and the closure would owe all that the formed one asks.
pub fn step(site: &mut [u64], links: &mut [u64], call: Call) -> Answer
    ensures { After (step_on site.old links.old call)
        site.old links.old site.new links.new result }
{
    if memory::is_by_form(site, links) {
        return step_formed(site, links, call);
    }
    Answer::Refused(Refusal::Form)
}

// A holds line on any words.
pub fn holds(site: &[u64], links: &[u64], c: u32, k: u32, left: u32, right: u32) -> Answer
    ensures { result ≡ holds_on site.now links.now c k left right }
{
    if memory::is_by_form(site, links) {
        return holds_formed(site, links, c, k, left, right);
    }
    Answer::Refused(Refusal::Form)
}

// Which present boxes have not answered the lease of box c, by any words.
pub fn unheard(site: &[u64], links: &[u64], c: u32) -> Result<u32, Refusal>
    ensures { result ≡ unheard_on site.now links.now c }
{
    if memory::is_by_form(site, links) {
        return unheard_formed(site, links, c);
    }
    Err(Refusal::Form)
}

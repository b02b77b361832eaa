// A mail handed over, the head of a link: the turn that it makes, and what that sends. A head that
// is lost, and one that is repeated.
ghost use Rattle.std.specs.Prelude.{◌≡◌, true, length};
ghost use Rattle.words.specs.Rows.{part};
ghost use Rattle.rules.specs.Box.{turned};
ghost use Rattle.rules.specs.Site.{posted};
ghost use Rattle.rules.specs.Step.{step};
ghost use Rattle.rules.specs.declared.model.Call.{Call};
ghost use Rattle.link.specs.Link.{place_width};
ghost use Rattle.letter.specs.Place.{letter_at};
ghost use Rattle.memory.specs.Memory.{site_of, memory_form};
ghost use Rattle.memory.specs.After.{boxes_of, links_of};
ghost use Rattle.site.specs.Entries.{After};
ghost use Rattle.site.specs.Carry.{less_head, TakesMail, HasHead, Carried};
ghost use Rattle.site.specs.Calls.{link_call};

use crate::turns;
use rules::model::{Answer, Refusal, Setting, Turn};
use rules::{answers, ranges};

// What is done with the head of a link.
#[derive(Clone, Copy)]
pub enum OnLink {
    Deliver,
    Lose,
    Repeat,
}

// The turn of box me by the mail that stands at p, the head of the link from a.
fn carry_mail(site: &mut [u64], links: &mut [u64], s: Setting, a: u32, p: usize, t: Turn)
    requires { TakesMail s a p site.old links.old t }
    ensures { Carried s
        (turned (boxes_of s site.old s.me) t
        (letter_at (part links.old p (place_width s.j))).records)
        (posted (less_head s a links.old) s.me t.out
        (turned (boxes_of s site.old s.me) t
        (letter_at (part links.old p (place_width s.j))).records).records)
        site.old links.old site.new links.new }
{
    let out = t.out;
    let q = p + (letter::HEAD + s.j as usize);
    memory::play(site, links, s, p, q, t);
    memory::pop(links, s, a);
    turns::post(site, links, s, out);
}

// The head of the link from a to me is taken, discarded or refused.
fn hand_over(site: &mut [u64], links: &mut [u64], s: Setting, a: u32) -> Answer
    requires { HasHead s a site.old links.old }
    ensures { After (step (site_of site.old links.old) (Call.Deliver a s.me))
        site.old links.old site.new links.new result }
{
    let p = memory::head_start(links, s, a);
    let t = memory::mail_turn(site, links, s, a, p);
    let answer = t.answer;
    if answers::is_refusal(answer) {
        return answer;
    }
    if !answers::is_accepted(answer) {
        memory::pop(links, s, a);
        return answer;
    }
    let out = t.out;
    if !turns::has_room(links, s, out) {
        return Answer::Refused(Refusal::Link);
    }
    carry_mail(site, links, s, a, p, t);
    answer
}

// The head is dropped.
fn lose(site: &[u64], links: &mut [u64], s: Setting, a: u32) -> Answer
    requires { HasHead s a site.now links.old }
    ensures { After (step (site_of site.now links.old) (Call.Lose a s.me))
        site.now links.old site.now links.new result }
{
    memory::pop(links, s, a);
    Answer::Done
}

// The head is doubled, where there is room; the link holds so many mails.
fn repeat(site: &[u64], links: &mut [u64], s: Setting, a: u32, held: usize) -> Answer
    requires has_head { HasHead s a site.now links.old }
    requires held_value { held ≡ length (links_of s links.old a s.me) }
    ensures { After (step (site_of site.now links.old) (Call.Repeat a s.me))
        site.now links.old site.now links.new result }
{
    if held < s.l as usize {
        memory::double(links, s, a);
        return Answer::Done;
    }
    Answer::Refused(Refusal::Link)
}

// A match and no closure: what comes of each is another step of the model, which the clause names.
pub(crate) fn on_link(site: &mut [u64], links: &mut [u64], a: u32, b: u32, what: OnLink) -> Answer
    requires { memory_form site.old links.old ≡ true }
    ensures { After (step (site_of site.old links.old) (link_call what a b))
        site.old links.old site.new links.new result }
{
    let s = memory::setting_of(site, b);
    if !ranges::is_link(s.n, a, b) {
        return Answer::Refused(Refusal::Box);
    }
    let held = memory::count(links, s, a, b);
    if held == 0 {
        return Answer::Refused(Refusal::Condition);
    }
    match what {
        OnLink::Deliver => hand_over(site, links, s, a),
        OnLink::Lose => lose(site, links, s, a),
        OnLink::Repeat => repeat(site, links, s, a, held),
    }
}

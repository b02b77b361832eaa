// A box's turn carried out: its row, and what it sends.
ghost use Rattle.std.specs.Prelude.{◌≡◌, true, []};
ghost use Rattle.rules.specs.Box.{turned};
ghost use Rattle.rules.specs.Site.{is_box, posted};
ghost use Rattle.laws.specs.Receivers.{NotTo};
ghost use Rattle.memory.specs.After.{boxes_of, links_of, LinksLent, LinksPut, RowsLent};
ghost use Rattle.site.specs.Carry.{room_out, Posts, Carries, Carried};
ghost use Rattle.rules.specs.Step.{acting};
ghost use Rattle.laws.specs.Frames.{ActFits};
ghost use Rattle.memory.specs.Memory.{site_of, memory_form};
ghost use Rattle.site.specs.Entries.{After};

use rules::model::{Act, Answer, Out, Refusal, Setting, Turn};
use rules::{answers, ranges};

// Every link that is sent on has room.
pub(crate) fn has_room(links: &[u64], s: Setting, out: Out) -> bool
    requires links_lent { LinksLent s links.now }
    requires me_value { is_box s.n s.me ≡ true }
    requires not_to { NotTo s.me out }
    ensures { result ≡ room_out s links.now out }
{
    match out {
        Out::Nothing => true,
        Out::To(set, _) => memory::has_room(links, s, set),
    }
}

// What is sent goes onto its links, with the records of box me.
pub(crate) fn post(site: &[u64], links: &mut [u64], s: Setting, out: Out)
    requires rows_lent { RowsLent s site.now }
    requires posts { Posts s links.old out (boxes_of s site.now s.me).records }
    ensures { LinksPut s
        (posted (links_of s links.old) s.me out
        (boxes_of s site.now s.me).records)
        links.old links.new }
{
    match out {
        Out::Nothing => {}
        Out::To(set, m) => memory::send(site, links, s, set, m),
    }
}

// A step of its own.
pub(crate) fn carry_out(site: &mut [u64], links: &mut [u64], s: Setting, t: Turn)
    requires { Carries s site.old links.old [] t }
    ensures { Carried s
        (turned (boxes_of s site.old s.me) t [])
        (posted (links_of s links.old) s.me t.out
        (turned (boxes_of s site.old s.me) t []).records)
        site.old links.old site.new links.new }
{
    let out = t.out;
    memory::play(site, links, s, 0, 0, t);
    post(site, links, s, out);
}

// A leader's step of box c.
pub(crate) fn acting(site: &mut [u64], links: &mut [u64], c: u32, a: Act) -> Answer
    requires links_value { memory_form site.old links.old ≡ true }
    requires act_fits { ActFits a }
    ensures { After (acting (site_of site.old links.old) c a)
        site.old links.old site.new links.new result }
{
    let s = memory::setting_of(site, c);
    if !ranges::is_box(s.n, c) {
        return Answer::Refused(Refusal::Box);
    }
    let t = memory::act_turn(site, s, a);
    let answer = t.answer;
    if !answers::is_accepted(answer) {
        return answer;
    }
    let out = t.out;
    if !has_room(links, s, out) {
        return Answer::Refused(Refusal::Link);
    }
    carry_out(site, links, s, t);
    answer
}

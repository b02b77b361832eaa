// Elections.
ghost use Rattle.std.specs.Prelude.{◌≡◌, true};
ghost use Rattle.rules.specs.Step.{step};
ghost use Rattle.rules.specs.declared.model.Call.{Call};
ghost use Rattle.memory.specs.Memory.{site_of, memory_form};
ghost use Rattle.site.specs.Entries.{After};
ghost use Rattle.site.specs.Carry.{Knows, ElectIs};

use crate::{presence, verdicts};
use rules::model::{Answer, Refusal, Setting, Verdict};
use rules::ranges;

// Where the verdict says Go, me is elected.
fn elect_by(site: &mut [u64], links: &mut [u64], s: Setting, v: Verdict) -> Answer
    requires { Knows s site.old links.old }
    ensures { ElectIs v s site.old links.old site.new
        links.new result }
{
    let epoch = s.epoch + 1;
    match v {
        Verdict::Go => {
            memory::elect_rows(site, s, s.me);
            memory::clear_links(links, s);
            presence::put_general(site, epoch, s.present);
            Answer::Done
        }
        Verdict::Discard(why) => Answer::Discarded(why),
        Verdict::Refuse(why) => Answer::Refused(why),
    }
}

pub(crate) fn elect(site: &mut [u64], links: &mut [u64], c: u32) -> Answer
    requires { memory_form site.old links.old ≡ true }
    ensures { After (step (site_of site.old links.old) (Call.Elect c))
        site.old links.old site.new links.new result }
{
    let s = memory::setting_of(site, c);
    if !ranges::is_box(s.n, c) {
        return Answer::Refused(Refusal::Box);
    }
    let here = memory::has(s.present, c);
    let v = verdicts::elect_verdict(s, here);
    elect_by(site, links, s, v)
}

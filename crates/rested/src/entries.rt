// What a caller calls: `rest` takes any words, `rest_formed` those by form.
ghost use Rattle.std.specs.Prelude.{◌≡◌, true};
ghost use Rattle.memory.specs.Memory.{memory_form};
ghost use Rattle.site.specs.Entries.{After};
ghost use Rattle.rested.specs.Rested.{rest_on, FormedRest};

use crate::boxes;
use rules::model::{Answer, Refusal};

// The step on words by form; they stay by form.
pub fn rest_formed(site: &mut [u64], links: &mut [u64]) -> Answer
    requires { memory_form site.old links.old ≡ true }
    ensures { FormedRest site.old links.old site.new
        links.new result }
{
    let s = memory::setting_of(site, 1);
    if s.epoch % 2 == 0 {
        return Answer::Refused(Refusal::Condition);
    }
    boxes::rest_rows(site, links, s);
    memory::clear_links(links, s);
    Answer::Done
}

// The step on any words.
pub fn rest(site: &mut [u64], links: &mut [u64]) -> Answer
    ensures { After (rest_on site.old links.old)
        site.old links.old site.new links.new result }
{
    if memory::is_by_form(site, links) {
        return rest_formed(site, links);
    }
    Answer::Refused(Refusal::Form)
}

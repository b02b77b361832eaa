// A site put at rest (Q-6).
ghost use Rattle.journal.specs.Rest.{RestAnswered};

use rules::numbers::answer_number;

// Every box as a fresh one but for what outlives a stop, and no mail; needs an odd epoch.
pub fn journal_rest(site: &mut [u64], links: &mut [u64]) -> u32
    ensures { RestAnswered site.old links.old site.new
        links.new result }
{
    let a = rested::rest(site, links);
    answer_number(a)
}

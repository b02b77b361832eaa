// A site put at rest (Q-6).
ghost use Rattle.journal.specs.Rest.{RestAnswered};

// Every box as a fresh one but for what outlives a stop, and no mail; needs an odd epoch.
#[unsafe(no_mangle)]
pub extern "C" fn journal_rest(site: &mut [u64], links: &mut [u64]) -> u32
    ensures { RestAnswered site.old links.old site.new
        links.new result }
{
    journal::journal_rest(site, links)
}

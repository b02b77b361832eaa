// The run after an election: what it answers, as one number, and the steps that it used.
ghost use Rattle.journal.specs.Run.{RunAnswered};

#[unsafe(no_mangle)]
pub extern "C" fn journal_run(
    site: &mut [u64],
    links: &mut [u64],
    steps: u32,
    used: &mut u32,
) -> u32
    ensures { RunAnswered steps site.old links.old site.new
        links.new used.old used.new result }
{
    journal::journal_run(site, links, steps, used)
}

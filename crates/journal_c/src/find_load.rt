// Which load has this frame (Q-5).
ghost use Rattle.find.specs.Find.{find_on};
ghost use Rattle.journal.specs.Find.{FindAnswered};

#[unsafe(no_mangle)]
pub extern "C" fn journal_find(
    site: &[u64],
    links: &[u64],
    c: u32,
    left: u32,
    number: &mut u32,
) -> u32
    ensures { FindAnswered (find_on site.now links.now c left)
        number.old number.new result }
{
    journal::journal_find(site, links, c, left, number)
}

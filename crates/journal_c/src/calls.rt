// The site: a fresh one, each of the sixteen calls, a holds line.
ghost use Rattle.std.specs.Prelude.{◌≡◌};
ghost use Rattle.rules.specs.Numbers.{answer_number};
ghost use Rattle.rules.specs.declared.model.Call.{Call};
ghost use Rattle.site.specs.Entries.{holds_on};
ghost use Rattle.journal.specs.Numbered.{Stepped, Freshened};

#[unsafe(no_mangle)]
pub extern "C" fn journal_fresh(site: &mut [u64], links: &mut [u64], n: u32, j: u32, l: u32) -> u32
    ensures { Freshened n j l site.old links.old site.new
        links.new result }
{
    journal::journal_fresh(site, links, n, j, l)
}

#[unsafe(no_mangle)]
pub extern "C" fn journal_holds(
    site: &[u64],
    links: &[u64],
    c: u32,
    k: u32,
    left: u32,
    right: u32,
) -> u32
    ensures { result ≡ answer_number (holds_on site.now links.now c k left right) }
{
    journal::journal_holds(site, links, c, k, left, right)
}

// Box c alone leads; needs an odd epoch and a majority present.
#[unsafe(no_mangle)]
pub extern "C" fn journal_elect(site: &mut [u64], links: &mut [u64], c: u32) -> u32
    ensures { Stepped (Call.Elect c) site.old links.old
        site.new links.new result }
{
    journal::journal_elect(site, links, c)
}

// Leader c takes a new proposal number.
#[unsafe(no_mangle)]
pub extern "C" fn journal_recover(site: &mut [u64], links: &mut [u64], c: u32) -> u32
    ensures { Stepped (Call.Recover c) site.old links.old
        site.new links.new result }
{
    journal::journal_recover(site, links, c)
}

// Leader c asks the others for what they hold.
#[unsafe(no_mangle)]
pub extern "C" fn journal_collect(site: &mut [u64], links: &mut [u64], c: u32) -> u32
    ensures { Stepped (Call.Collect c) site.old links.old
        site.new links.new result }
{
    journal::journal_collect(site, links, c)
}

// All present have answered: leader c starts an unagreed record again, or leases.
#[unsafe(no_mangle)]
pub extern "C" fn journal_ready(site: &mut [u64], links: &mut [u64], c: u32) -> u32
    ensures { Stepped (Call.Ready c) site.old links.old
        site.new links.new result }
{
    journal::journal_ready(site, links, c)
}

// A pair of frames waits at leader c.
#[unsafe(no_mangle)]
pub extern "C" fn journal_offer(
    site: &mut [u64],
    links: &mut [u64],
    c: u32,
    left: u32,
    right: u32,
) -> u32
    ensures { Stepped (Call.Offer c left right) site.old links.old
        site.new links.new result }
{
    journal::journal_offer(site, links, c, left, right)
}

// Leader c starts the waiting pair under the next number.
#[unsafe(no_mangle)]
pub extern "C" fn journal_propose(site: &mut [u64], links: &mut [u64], c: u32) -> u32
    ensures { Stepped (Call.Propose c) site.old links.old
        site.new links.new result }
{
    journal::journal_propose(site, links, c)
}

// All present have accepted: the number is agreed.
#[unsafe(no_mangle)]
pub extern "C" fn journal_agree(site: &mut [u64], links: &mut [u64], c: u32) -> u32
    ensures { Stepped (Call.Agree c) site.old links.old
        site.new links.new result }
{
    journal::journal_agree(site, links, c)
}

// Leader c is Active again.
#[unsafe(no_mangle)]
pub extern "C" fn journal_finish(site: &mut [u64], links: &mut [u64], c: u32) -> u32
    ensures { Stepped (Call.Finish c) site.old links.old
        site.new links.new result }
{
    journal::journal_finish(site, links, c)
}

// All present have answered the lease of leader c.
#[unsafe(no_mangle)]
pub extern "C" fn journal_heard(site: &mut [u64], links: &mut [u64], c: u32) -> u32
    ensures { Stepped (Call.Heard c) site.old links.old
        site.new links.new result }
{
    journal::journal_heard(site, links, c)
}

// Box c drops its agreed loads below k.
#[unsafe(no_mangle)]
pub extern "C" fn journal_trim(site: &mut [u64], links: &mut [u64], c: u32, k: u32) -> u32
    ensures { Stepped (Call.Trim c k) site.old links.old
        site.new links.new result }
{
    journal::journal_trim(site, links, c, k)
}

// Box c is switched off.
#[unsafe(no_mangle)]
pub extern "C" fn journal_stop(site: &mut [u64], links: &mut [u64], c: u32) -> u32
    ensures { Stepped (Call.Stop c) site.old links.old
        site.new links.new result }
{
    journal::journal_stop(site, links, c)
}

// Box c comes back.
#[unsafe(no_mangle)]
pub extern "C" fn journal_return(site: &mut [u64], links: &mut [u64], c: u32) -> u32
    ensures { Stepped (Call.Return c) site.old links.old
        site.new links.new result }
{
    journal::journal_return(site, links, c)
}

// Box c misses its leader: an election is due.
#[unsafe(no_mangle)]
pub extern "C" fn journal_timeout(site: &mut [u64], links: &mut [u64], c: u32) -> u32
    ensures { Stepped (Call.Timeout c) site.old links.old
        site.new links.new result }
{
    journal::journal_timeout(site, links, c)
}

// The head of the link from a to b is dropped.
#[unsafe(no_mangle)]
pub extern "C" fn journal_lose(site: &mut [u64], links: &mut [u64], a: u32, b: u32) -> u32
    ensures { Stepped (Call.Lose a b) site.old links.old
        site.new links.new result }
{
    journal::journal_lose(site, links, a, b)
}

// The head of the link from a to b stands twice.
#[unsafe(no_mangle)]
pub extern "C" fn journal_repeat(site: &mut [u64], links: &mut [u64], a: u32, b: u32) -> u32
    ensures { Stepped (Call.Repeat a b) site.old links.old
        site.new links.new result }
{
    journal::journal_repeat(site, links, a, b)
}

// The head of the link from a to b is handed over.
#[unsafe(no_mangle)]
pub extern "C" fn journal_deliver(site: &mut [u64], links: &mut [u64], a: u32, b: u32) -> u32
    ensures { Stepped (Call.Deliver a b) site.old links.old
        site.new links.new result }
{
    journal::journal_deliver(site, links, a, b)
}

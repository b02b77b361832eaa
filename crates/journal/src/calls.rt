// The site: a fresh one, each of the sixteen calls, a holds line.
ghost use Rattle.std.specs.Prelude.{◌≡◌};
ghost use Rattle.rules.specs.Numbers.{answer_number};
ghost use Rattle.rules.specs.declared.model.Call.{Call};
ghost use Rattle.site.specs.Entries.{holds_on};
ghost use Rattle.journal.specs.Numbered.{Stepped, Freshened};

use rules::model::Call;
use rules::numbers::answer_number;

pub fn journal_fresh(site: &mut [u64], links: &mut [u64], n: u32, j: u32, l: u32) -> u32
    ensures { Freshened n j l site.old links.old site.new
        links.new result }
{
    answer_number(site::fresh(site, links, n, j, l))
}

pub fn journal_holds(site: &[u64], links: &[u64], c: u32, k: u32, left: u32, right: u32) -> u32
    ensures { result ≡ answer_number (holds_on site.now links.now c k left right) }
{
    answer_number(site::holds(site, links, c, k, left, right))
}

fn stepped(site: &mut [u64], links: &mut [u64], call: Call) -> u32
    ensures { Stepped call site.old links.old site.new
        links.new result }
{
    answer_number(site::step(site, links, call))
}

// Box c alone leads; needs an odd epoch and a majority present.
pub fn journal_elect(site: &mut [u64], links: &mut [u64], c: u32) -> u32
    ensures { Stepped (Call.Elect c) site.old links.old
        site.new links.new result }
{
    stepped(site, links, Call::Elect(c))
}

// Leader c takes a new proposal number.
pub fn journal_recover(site: &mut [u64], links: &mut [u64], c: u32) -> u32
    ensures { Stepped (Call.Recover c) site.old links.old
        site.new links.new result }
{
    stepped(site, links, Call::Recover(c))
}

// Leader c asks the others for what they hold.
pub fn journal_collect(site: &mut [u64], links: &mut [u64], c: u32) -> u32
    ensures { Stepped (Call.Collect c) site.old links.old
        site.new links.new result }
{
    stepped(site, links, Call::Collect(c))
}

// All present have answered: leader c starts an unagreed record again, or leases.
pub fn journal_ready(site: &mut [u64], links: &mut [u64], c: u32) -> u32
    ensures { Stepped (Call.Ready c) site.old links.old
        site.new links.new result }
{
    stepped(site, links, Call::Ready(c))
}

// A pair of frames waits at leader c.
pub fn journal_offer(site: &mut [u64], links: &mut [u64], c: u32, left: u32, right: u32) -> u32
    ensures { Stepped (Call.Offer c left right) site.old links.old
        site.new links.new result }
{
    stepped(site, links, Call::Offer(c, left, right))
}

// Leader c starts the waiting pair under the next number.
pub fn journal_propose(site: &mut [u64], links: &mut [u64], c: u32) -> u32
    ensures { Stepped (Call.Propose c) site.old links.old
        site.new links.new result }
{
    stepped(site, links, Call::Propose(c))
}

// All present have accepted: the number is agreed.
pub fn journal_agree(site: &mut [u64], links: &mut [u64], c: u32) -> u32
    ensures { Stepped (Call.Agree c) site.old links.old
        site.new links.new result }
{
    stepped(site, links, Call::Agree(c))
}

// Leader c is Active again.
pub fn journal_finish(site: &mut [u64], links: &mut [u64], c: u32) -> u32
    ensures { Stepped (Call.Finish c) site.old links.old
        site.new links.new result }
{
    stepped(site, links, Call::Finish(c))
}

// All present have answered the lease of leader c.
pub fn journal_heard(site: &mut [u64], links: &mut [u64], c: u32) -> u32
    ensures { Stepped (Call.Heard c) site.old links.old
        site.new links.new result }
{
    stepped(site, links, Call::Heard(c))
}

// Box c drops its agreed loads below k.
pub fn journal_trim(site: &mut [u64], links: &mut [u64], c: u32, k: u32) -> u32
    ensures { Stepped (Call.Trim c k) site.old links.old
        site.new links.new result }
{
    stepped(site, links, Call::Trim(c, k))
}

// Box c is switched off.
pub fn journal_stop(site: &mut [u64], links: &mut [u64], c: u32) -> u32
    ensures { Stepped (Call.Stop c) site.old links.old
        site.new links.new result }
{
    stepped(site, links, Call::Stop(c))
}

// Box c comes back.
pub fn journal_return(site: &mut [u64], links: &mut [u64], c: u32) -> u32
    ensures { Stepped (Call.Return c) site.old links.old
        site.new links.new result }
{
    stepped(site, links, Call::Return(c))
}

// Box c misses its leader: an election is due.
pub fn journal_timeout(site: &mut [u64], links: &mut [u64], c: u32) -> u32
    ensures { Stepped (Call.Timeout c) site.old links.old
        site.new links.new result }
{
    stepped(site, links, Call::Timeout(c))
}

// The head of the link from a to b is dropped.
pub fn journal_lose(site: &mut [u64], links: &mut [u64], a: u32, b: u32) -> u32
    ensures { Stepped (Call.Lose a b) site.old links.old
        site.new links.new result }
{
    stepped(site, links, Call::Lose(a, b))
}

// The head of the link from a to b stands twice.
pub fn journal_repeat(site: &mut [u64], links: &mut [u64], a: u32, b: u32) -> u32
    ensures { Stepped (Call.Repeat a b) site.old links.old
        site.new links.new result }
{
    stepped(site, links, Call::Repeat(a, b))
}

// The head of the link from a to b is handed over.
pub fn journal_deliver(site: &mut [u64], links: &mut [u64], a: u32, b: u32) -> u32
    ensures { Stepped (Call.Deliver a b) site.old links.old
        site.new links.new result }
{
    stepped(site, links, Call::Deliver(a, b))
}

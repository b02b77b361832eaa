// The first link that holds mail, by sender then receiver.
ghost use Rattle.std.specs.Prelude.{◌≡◌, true};
ghost use Rattle.rules.specs.Site.{is_box};
ghost use Rattle.wait.specs.Run.{sender_of};
ghost use Rattle.memory.specs.Memory.{site_of, memory_form};
ghost use Rattle.memory.specs.After.{LinksLent};
ghost use Rattle.until.specs.Turns.{mail_on, receiver_in, sender_in, mail_turn};

use rules::model::{Call, Setting};

fn holds_mail(links: &[u64], s: Setting, a: u32, b: u32) -> bool
    requires links_lent { LinksLent s links.now }
    requires a_value { is_box s.n a ≡ true }
    requires b_value { is_box s.n b ≡ true }
    ensures { result ≡ mail_on s links.now a b }
{
    if a == b {
        return false;
    }
    0 < memory::count(links, s, a, b)
}

// To whom box a's first mail goes, 0 where it has none under way.
fn first_receiver(links: &[u64], s: Setting, a: u32) -> u32
    requires links_lent { LinksLent s links.now }
    requires a_value { is_box s.n a ≡ true }
    ensures { result ≡ receiver_in s links.now a }
{
    for b in 1..=s.n {
        if holds_mail(links, s, a, b) {
            return b;
        }
    }
    0
}

// The first box that has mail under way, 0 where none has.
fn first_sender(links: &[u64], s: Setting) -> u32
    requires { LinksLent s links.now }
    ensures { result ≡ sender_in s links.now }
{
    for a in 1..=s.n {
        let b = first_receiver(links, s, a);
        if 0 < b {
            return a;
        }
    }
    0
}

// The same of words by form.
pub(crate) fn sender(site: &[u64], links: &[u64]) -> u32
    requires { memory_form site.now links.now ≡ true }
    ensures { result ≡ sender_of (site_of site.now links.now) }
{
    let s = memory::setting_of(site, 0);
    first_sender(links, s)
}

// The mail that is next, if any link holds one.
pub(crate) fn mail_next(site: &[u64], links: &[u64]) -> Option<Call>
    requires { memory_form site.now links.now ≡ true }
    ensures { result ≡ mail_turn (site_of site.now links.now) }
{
    let s = memory::setting_of(site, 0);
    let a = first_sender(links, s);
    if a == 0 {
        return None;
    }
    let b = first_receiver(links, s, a);
    Some(Call::Deliver(a, b))
}

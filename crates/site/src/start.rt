// A fresh site.
ghost use Rattle.std.specs.Prelude.{◌≤◌, ◌≡◌, length};
ghost use Rattle.rules.specs.Sizes.{most_boxes};
ghost use Rattle.rules.specs.Sets.{full_set};
ghost use Rattle.memory.specs.Memory.{general_words};
ghost use Rattle.site.specs.General.{setting_put};
ghost use Rattle.site.specs.Entries.{FreshMade};

use rules::model::{Answer, Refusal, Setting};
use rules::ranges;

// Every box of n.
fn full_set(n: u32) -> u32
    requires { n ≤ most_boxes }
    ensures { result ≡ full_set n }
{
    (1 << n) - 1
}

// The five general words are written.
fn put_setting(site: &mut [u64], s: Setting)
    requires { general_words ≤ length site.old }
    ensures { site.new ≡ setting_put s site.old }
{
    site[memory::N] = s.n as u64;
    site[memory::J] = s.j as u64;
    site[memory::L] = s.l as u64;
    site[memory::EPOCH] = s.epoch as u64;
    site[memory::PRESENT] = s.present as u64;
}

// A fresh site of n boxes in any words.
pub fn fresh(site: &mut [u64], links: &mut [u64], n: u32, j: u32, l: u32) -> Answer
    ensures { FreshMade n j l site.old links.old site.new
        links.new result }
{
    if !ranges::are_sizes(n as u64, j as u64, l as u64) {
        return Answer::Refused(Refusal::Sizes);
    }
    let s = Setting {
        n,
        j,
        l,
        epoch: 1,
        present: full_set(n),
        me: 0,
    };
    if !memory::has_words(site, links, s) {
        return Answer::Refused(Refusal::Buffer);
    }
    put_setting(site, s);
    memory::fresh_rows(site, s);
    memory::clear_links(links, s);
    Answer::Done
}

// The links: their mails counted, read, taken and sent.
ghost use Rattle.std.specs.Prelude.{◌≡◌, true, false, ◌&&◌, ◌-◌, ◌*◌, ◌≤◌, ◌<◌, eqb, length};
ghost use mathlib.Core.List.{[], tail};
ghost use Rattle.rules.specs.Every.{every};
ghost use Rattle.rules.specs.Sizes.{sizes_form};
ghost use Rattle.rules.specs.Sets.{has};
ghost use Rattle.rules.specs.Box.{letter_of};
ghost use Rattle.rules.specs.Site.{is_box, is_link, posted, twice};
ghost use Rattle.rules.specs.declared.model.Out.{Out};
ghost use Rattle.memory.specs.Memory.{links_words};
ghost use Rattle.memory.specs.After.{
  boxes_of,
  links_of,
  links_by,
  RowsLent,
  LinksLent,
  LinkSet,
  LinksPut,
  HeadStands,
  sent,
  room_for,
  Sends,
  SendsTo,
};

use crate::{general, places};
use rules::model::{Mail, Setting};

// How many mails the link from a to b holds.
pub fn count(links: &[u64], s: Setting, a: u32, b: u32) -> usize
    requires links_lent { LinksLent s links.now }
    requires b_value { is_link s.n a b ≡ true }
    ensures { result ≡ length (links_of s links.now a b) }
{
    let k = places::link_index(s, a, b);
    link::count(places::link_of(links, s, k), s.j, s.l)
}

// Where the place of the first mail from a to me begins.
pub fn head_start(links: &[u64], s: Setting, a: u32) -> usize
    requires links_lent { LinksLent s links.now }
    requires me_value { is_link s.n a s.me ≡ true }
    requires nonzero { 0 < length (links_of s links.now a s.me) }
    ensures { HeadStands s a links.now result }
{
    let start = places::link_start(s, a, s.me);
    let end = places::link_end(s, start);
    start + link::head_at(&links[start..end], s.j, s.l)
}

// The first mail from a to me leaves its link.
pub fn pop(links: &mut [u64], s: Setting, a: u32)
    requires links_lent { LinksLent s links.old }
    requires me_value { is_link s.n a s.me ≡ true }
    requires nonzero { 0 < length (links_of s links.old a s.me) }
    ensures { LinksPut s (links_by tail s a s.me links.old)
        links.old links.new }
{
    let start = places::link_start(s, a, s.me);
    let end = places::link_end(s, start);
    link::pop(&mut links[start..end], s.j, s.l);
}

// The first mail from a to me stands twice on its link.
// Not one function with `pop` over a closure: the two lines that are the same are less than the
// clause of the closure would be.
pub fn double(links: &mut [u64], s: Setting, a: u32)
    requires links_lent { LinksLent s links.old }
    requires me_value { is_link s.n a s.me ≡ true }
    requires nonzero { 0 < length (links_of s links.old a s.me) }
    requires me_len_bound { length (links_of s links.old a s.me) < s.l }
    ensures { LinksPut s (links_by twice s a s.me links.old)
        links.old links.new }
{
    let start = places::link_start(s, a, s.me);
    let end = places::link_end(s, start);
    link::double(&mut links[start..end], s.j, s.l);
}

// No mail is left on link k, whatever its words were.
fn clear_link(links: &mut [u64], s: Setting, k: usize)
    requires l_value { sizes_form s.n s.j s.l ≡ true }
    requires l_in_bounds { links_words s.n s.j s.l ≤ length links.old }
    requires k_bound { k < s.n * (s.n - 1) }
    ensures { LinkSet s k [] links.old links.new }
{
    let start = places::link_row(s, k);
    let end = places::link_end(s, start);
    link::clear(&mut links[start..end], s.j, s.l);
}

// No mail is left on any link, whatever the words were.
pub fn clear_links(links: &mut [u64], s: Setting)
    requires l_value { sizes_form s.n s.j s.l ≡ true }
    requires l_in_bounds { links_words s.n s.j s.l ≤ length links.old }
    ensures { LinksPut s (λ a b. []) links.old links.new }
{
    let count = places::link_count(s);
    for k in 0..count {
        clear_link(links, s, k);
    }
}

// The link from me to box b has room, where b is in the set.
fn has_room_for(links: &[u64], s: Setting, set: u32, b: u32) -> bool
    requires links_lent { LinksLent s links.now }
    requires me_value { is_box s.n s.me ≡ true }
    requires b_value { is_box s.n b ≡ true }
    requires me_value_2 { has set s.me ≡ false }
    ensures { result ≡ room_for s links.now set b }
{
    if general::has(set, b) {
        let held = count(links, s, s.me, b);
        return held < s.l as usize;
    }
    true
}

// Every link from me to a box of the set has room for one mail more.
pub fn has_room(links: &[u64], s: Setting, set: u32) -> bool
    requires links_lent { LinksLent s links.now }
    requires me_value { is_box s.n s.me ≡ true }
    requires me_value_2 { has set s.me ≡ false }
    ensures { result ≡ every s.n (room_for s links.now set) }
{
    for b in 1..=s.n {
        if !has_room_for(links, s, set, b) {
            return false;
        }
    }
    true
}

// The mail goes from me to box b, where b is in the set, with its records of those.
fn send_to(links: &mut [u64], s: Setting, set: u32, b: u32, m: Mail, records: &[u64])
    requires { SendsTo s links.old set b m records.now }
    ensures { LinksPut s
        (sent (links_of s links.old) s.me (λ y. has set y && eqb y b)
        (letter_of m records.now))
        links.old links.new }
{
    if general::has(set, b) {
        let start = places::link_start(s, s.me, b);
        let end = places::link_end(s, start);
        link::push(&mut links[start..end], s.j, s.l, m, records);
    }
}

// The mail goes from me to each box of the set, with its records of those.
fn send_all(links: &mut [u64], s: Setting, set: u32, m: Mail, records: &[u64])
    requires { Sends s links.old set m records.now }
    ensures { LinksPut s
        (posted (links_of s links.old) s.me (Out.To set m) records.now)
        links.old links.new }
{
    for b in 1..=s.n {
        send_to(links, s, set, b, m, records);
    }
}

// The mail goes from me to each box of the set, with its records of those that me holds.
pub fn send(site: &[u64], links: &mut [u64], s: Setting, set: u32, m: Mail)
    requires rows_lent { RowsLent s site.now }
    requires sends { Sends s links.old set m (boxes_of s site.now s.me).records }
    ensures { LinksPut s
        (posted (links_of s links.old) s.me (Out.To set m)
        (boxes_of s site.now s.me).records)
        links.old links.new }
{
    let row = places::row_of(site, s, s.me);
    send_all(links, s, set, m, row::records(row));
}

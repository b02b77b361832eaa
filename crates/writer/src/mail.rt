// The mail body: each link's count, and its mails in order round the ring.
ghost use Rattle.std.specs.Prelude.{◌≡◌, [], ◌∷◌, ◌-◌, ◌*◌, ◌<◌, length, get_or};
ghost use Rattle.link.specs.Link.{link_of};
ghost use Rattle.link.specs.Holds.{ReadableLink, place_in};
ghost use Rattle.memory.specs.After.{LinksLent};
ghost use Rattle.cells.specs.Cells.{chain, Room, Wrote};
ghost use Rattle.image.specs.Image.{letter_bytes, link_bytes};
ghost use Rattle.writer.specs.Bodies.{letter_in, links_in, link_in, Short, Space, Entered};

use crate::entry;
use rules::model::Setting;
use words::size;

// The place of mail i.
fn place_of(link: &[u64], j: u32, l: u32, i: usize) -> &[u64]
    requires { ReadableLink j l link.now × (i < length (link_of j l link.now)) }
    ensures { result.now ≡ place_in j l (get_or link.now 0 0) i link.now }
{
    let start = link::place_at(j, l, size(link[0]), i);
    let width = letter::HEAD + j as usize;
    let end = start + width;
    &link[start..end]
}

// ---- lengths
//
// A loop for each list, here and in `boxes`, and no generic one: each calls another function, whose
// needs of item i follow from another fact of the whole, so a closure would owe all of them again.

fn letter_length(link: &[u64], j: u32, l: u32, i: usize) -> usize
    requires { ReadableLink j l link.now × (i < length (link_of j l link.now)) }
    ensures { result ≡ length (letter_bytes (letter_in j l link.now i)) }
{
    let place = place_of(link, j, l, i);
    let kind = letter::kind_of(place[letter::KIND]);
    image::letter_head_bytes(kind) + 8 * size(place[letter::COUNT])
}

fn letters_length(link: &[u64], j: u32, l: u32) -> usize
    requires readable_link { ReadableLink j l link.now }
    requires short { Short (chain letter_bytes (link_of j l link.now)) }
    ensures { result ≡ length (chain letter_bytes (link_of j l link.now)) }
{
    let count = link::count(link, j, l);
    let mut total = 0;
    for i in 0..count {
        total += letter_length(link, j, l, i);
    }
    total
}

fn link_length(links: &[u64], s: Setting, k: usize) -> usize
    requires links_lent { LinksLent s links.now × (k < s.n * (s.n - 1)) }
    requires short { Short (link_bytes (link_in s links.now k)) }
    ensures { result ≡ length (link_bytes (link_in s links.now k)) }
{
    4 + letters_length(memory::link_of(links, s, k), s.j, s.l)
}

// The mail body's length.
pub fn links_length(links: &[u64], s: Setting) -> usize
    requires links_lent { LinksLent s links.now }
    requires short { Short (chain link_bytes (links_in s links.now)) }
    ensures { result ≡ length (chain link_bytes (links_in s links.now)) }
{
    let count = memory::link_count(s);
    let mut total = 0;
    for k in 0..count {
        total += link_length(links, s, k);
    }
    total
}

// ---- bytes

fn write_letter(out: &mut [u8], at: usize, link: &[u64], j: u32, l: u32, i: usize) -> usize
    requires readable_link { ReadableLink j l link.now × (i < length (link_of j l link.now)) }
    requires room { Room (letter_bytes (letter_in j l link.now i)) out.old at }
    ensures { Wrote (letter_bytes (letter_in j l link.now i))
        out.old at out.new result }
{
    let place = place_of(link, j, l, i);
    let kind = letter::kind_of(place[letter::KIND]);
    let groups = image::letter_groups(kind);
    cells::put_headed(out, at, &groups, letter::HEAD, letter::COUNT, place)
}

fn write_letters(out: &mut [u8], at: usize, link: &[u64], j: u32, l: u32) -> usize
    requires readable_link { ReadableLink j l link.now }
    requires room { Room (chain letter_bytes (link_of j l link.now)) out.old at }
    ensures { Wrote (chain letter_bytes (link_of j l link.now))
        out.old at out.new result }
{
    let count = link::count(link, j, l);
    let mut p = at;
    for i in 0..count {
        p = write_letter(out, p, link, j, l, i);
    }
    p
}

fn write_link(out: &mut [u8], at: usize, links: &[u64], s: Setting, k: usize) -> usize
    requires links_lent { LinksLent s links.now × (k < s.n * (s.n - 1)) }
    requires room { Room (link_bytes (link_in s links.now k)) out.old at }
    ensures { Wrote (link_bytes (link_in s links.now k))
        out.old at out.new result }
{
    let link = memory::link_of(links, s, k);
    let p = cells::put_words(out, at, 4, &link[1..2]);
    write_letters(out, p, link, s.j, s.l)
}

fn write_links(out: &mut [u8], at: usize, links: &[u64], s: Setting) -> usize
    requires links_lent { LinksLent s links.now }
    requires room { Room (chain link_bytes (links_in s links.now)) out.old at }
    ensures { Wrote (chain link_bytes (links_in s links.now))
        out.old at out.new result }
{
    let count = memory::link_count(s);
    let mut p = at;
    for k in 0..count {
        p = write_link(out, p, links, s, k);
    }
    p
}

// The mail body at `at`, its entry at k.
pub fn write_mail(out: &mut [u8], k: usize, at: usize, links: &[u64], s: Setting) -> usize
    requires links_lent { LinksLent s links.now }
    requires space { Space (chain link_bytes (links_in s links.now) ∷ []) out.old k at }
    ensures { Entered (chain link_bytes (links_in s links.now) ∷ [])
        out.old k at out.new result }
{
    let end = write_links(out, at, links, s);
    entry::enter(out, k, at, end);
    end
}

// One link in lent words: its first place, its count of mails, and l places round a ring, each with
// room for a mail of j records. Some functions take j and l for their contract alone.
#![tactic(auto)]

ghost use Rattle.std.specs.Prelude.{◌≡◌, ◌+◌, ◌≤◌, ◌<◌, length};
ghost use mathlib.Core.List.{[], ◌∷◌, ◌++◌, tail};
ghost use Rattle.rules.specs.Box.{letter_of};
ghost use Rattle.rules.specs.Site.{twice};
ghost use Rattle.letter.specs.Place.{place_form};
ghost use Rattle.link.specs.Link.{place_width, link_width, link_of, link_form};
ghost use Rattle.link.specs.Holds.{
  place_start,
  place_in,
  LinkSizes,
  LinkWords,
  ReadableLink,
  Holds,
  HeadAt,
  Sendable,
};

use rules::model::Mail;

// Where the place begins that is i places on from the first, and that it ends within the link.
pub fn place_at(j: u32, l: u32, first: usize, i: usize) -> usize
    requires link_sizes { LinkSizes j l }
    requires first_lt_l { (first < l) × (i ≤ l) }
    ensures { (result ≡ place_start j l first i) × (result + place_width j ≤ link_width j l) }
{
    let width = letter::HEAD + j as usize;
    let places = l as usize;
    let p = words::place(places, first, i);
    2 + words::row_at(p, width, places)
}

// How many mails the link holds.
pub fn count(link: &[u64], j: u32, l: u32) -> usize
    requires { ReadableLink j l link.now }
    ensures { result ≡ length (link_of j l link.now) }
{
    words::size(link[1])
}

// Where the place of the first mail begins.
pub fn head_at(link: &[u64], j: u32, l: u32) -> usize
    requires readable_link { ReadableLink j l link.now }
    requires nonzero { 0 < length (link_of j l link.now) }
    ensures { HeadAt j l link.now result }
{
    let first = words::size(link[0]);
    place_at(j, l, first, 0)
}

// The mail, with those of the records that go with it, is put behind the others.
pub fn push(link: &mut [u64], j: u32, l: u32, m: Mail, records: &[u64])
    requires readable_link { ReadableLink j l link.old }
    requires link_len_bound { length (link_of j l link.old) < l }
    requires sendable { Sendable j m records.now }
    ensures { Holds j l link.new
        (link_of j l link.old ++ (letter_of m records.now ∷ [])) }
{
    let first = words::size(link[0]);
    let count = words::size(link[1]);
    let start = place_at(j, l, first, count);
    let width = letter::HEAD + j as usize;
    let end = start + width;
    letter::enclose(&mut link[start..end], m, records);
    link[1] = words::word(count + 1);
}

// The first mail leaves the link.
pub fn pop(link: &mut [u64], j: u32, l: u32)
    requires readable_link { ReadableLink j l link.old }
    requires nonzero { 0 < length (link_of j l link.old) }
    ensures { Holds j l link.new (tail (link_of j l link.old)) }
{
    let first = words::size(link[0]);
    let count = words::size(link[1]);
    link[0] = words::word(words::after(l as usize, first));
    link[1] = words::word(count - 1);
}

// The first mail stands twice: the ring begins one place sooner, with the words that it holds.
pub fn double(link: &mut [u64], j: u32, l: u32)
    requires readable_link { ReadableLink j l link.old }
    requires nonzero { (0 < length (link_of j l link.old)) × (length (link_of j l link.old) < l) }
    ensures { Holds j l link.new (twice (link_of j l link.old)) }
{
    let first = words::size(link[0]);
    let count = words::size(link[1]);
    let before = words::before(l as usize, first);
    let from = place_at(j, l, first, 0);
    let to = place_at(j, l, before, 0);
    let held = letter::HEAD + words::size(link[from + letter::COUNT]);
    words::copy_within(link, from, to, held);
    link[0] = words::word(before);
    link[1] = words::word(count + 1);
}

// The link is empty, whatever its words were.
pub fn clear(link: &mut [u64], j: u32, l: u32)
    requires { LinkWords j l link.old }
    ensures { Holds j l link.new [] }
{
    link[0] = 0;
    link[1] = 0;
}

// The mail is by form that stands i places on from the first.
fn is_place_by_form(link: &[u64], j: u32, l: u32, first: usize, i: usize) -> bool
    requires link_words { LinkWords j l link.now }
    requires first_lt_l { (first < l) × (i ≤ l) }
    ensures { result ≡ place_form j (place_in j l first i link.now) }
{
    let start = place_at(j, l, first, i);
    let width = letter::HEAD + j as usize;
    let end = start + width;
    letter::is_by_form(&link[start..end], j)
}

// The places that hold no mail are not looked at.
pub fn is_by_form(link: &[u64], j: u32, l: u32) -> bool
    requires { LinkWords j l link.now }
    ensures { result ≡ link_form j l link.now }
{
    let first = words::size(link[0]);
    let count = words::size(link[1]);
    let most = l as usize;
    if most <= first {
        return false;
    }
    if most < count {
        return false;
    }
    for i in 0..count {
        if !is_place_by_form(link, j, l, first, i) {
            return false;
        }
    }
    true
}

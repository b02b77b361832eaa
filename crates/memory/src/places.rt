// Where each row stands in the two slices, and how many words they need.
ghost use Rattle.std.specs.Prelude.{◌≡◌, true, cond, ◌+◌, ◌-◌, ◌*◌, ◌≤◌, ◌<◌, ltb, length};
ghost use Rattle.rules.specs.Sizes.{sizes_form};
ghost use Rattle.rules.specs.Site.{is_box, is_link};
ghost use Rattle.link.specs.Link.{link_width};
ghost use Rattle.link.specs.Holds.{LinkSizes};
ghost use Rattle.memory.specs.Memory.{
  site_words,
  links_words,
  row_start,
  row_at,
  link_index,
  link_start,
};
ghost use Rattle.row.specs.Row.{row_width};
ghost use Rattle.memory.specs.After.{link_row};
ghost use Rattle.memory.specs.Parts.{words_form};

use crate::general::GENERAL;
use rules::model::Setting;

// Where box b's row begins, and that it ends within the words of the site.
pub fn row_start(s: Setting, b: u32) -> usize
    requires l_value { sizes_form s.n s.j s.l ≡ true }
    requires b_value { is_box s.n b ≡ true }
    ensures { (result ≡ row_start s.j b) × (result + row_width s.j ≤ site_words s.n s.j) }
{
    let width = row::row_width(s.j);
    let before = (b - 1) as usize;
    GENERAL + words::row_at(before, width, s.n as usize)
}

// The row of box b.
pub fn row_of(site: &[u64], s: Setting, b: u32) -> &[u64]
    requires l_value { sizes_form s.n s.j s.l ≡ true }
    requires j_in_bounds { site_words s.n s.j ≤ length site.now }
    requires b_value { is_box s.n b ≡ true }
    ensures { result.now ≡ row_at s.j site.now b }
{
    let start = row_start(s, b);
    let end = start + row::row_width(s.j);
    &site[start..end]
}

pub fn link_width(j: u32, l: u32) -> usize
    requires { LinkSizes j l }
    ensures { result ≡ link_width j l }
{
    let place = letter::HEAD + j as usize;
    2 + l as usize * place
}

// The receiver's place among those of the sender.
fn seat(a: u32, b: u32) -> usize
    requires { (1 ≤ a) × (1 ≤ b) × (a ≡ b → ⊥) }
    ensures { result ≡ cond (ltb b a) (b - 1) (b - 2) }
{
    if b < a {
        return (b - 1) as usize;
    }
    (b - 2) as usize
}

// How many links there are.
pub fn link_count(s: Setting) -> usize
    requires { sizes_form s.n s.j s.l ≡ true }
    ensures { result ≡ s.n * (s.n - 1) }
{
    let n = s.n as usize;
    n * (n - 1)
}

// The number of the link from a to b.
pub(crate) fn link_index(s: Setting, a: u32, b: u32) -> usize
    requires l_value { sizes_form s.n s.j s.l ≡ true }
    requires b_value { is_link s.n a b ≡ true }
    ensures { (result ≡ link_index s.n a b) × (result < s.n * (s.n - 1)) }
{
    let before = (a - 1) as usize;
    let others = (s.n - 1) as usize;
    before * others + seat(a, b)
}

// Where the row of link k begins, and that it ends within the words of the links.
pub(crate) fn link_row(s: Setting, k: usize) -> usize
    requires l_value { sizes_form s.n s.j s.l ≡ true }
    requires k_bound { k < s.n * (s.n - 1) }
    ensures { (result ≡ k * link_width s.j s.l)
        × (result + link_width s.j s.l ≤ links_words s.n s.j s.l) }
{
    let width = link_width(s.j, s.l);
    words::row_at(k, width, link_count(s))
}

// The same of the link from a to b.
pub fn link_start(s: Setting, a: u32, b: u32) -> usize
    requires l_value { sizes_form s.n s.j s.l ≡ true }
    requires b_value { is_link s.n a b ≡ true }
    ensures { (result ≡ link_start s.n s.j s.l a b)
        × (result + link_width s.j s.l ≤ links_words s.n s.j s.l) }
{
    link_row(s, link_index(s, a, b))
}

// Where a link's row that begins at start ends.
pub(crate) fn link_end(s: Setting, start: usize) -> usize
    requires l_value { sizes_form s.n s.j s.l ≡ true }
    requires l_bound { start + link_width s.j s.l ≤ links_words s.n s.j s.l }
    ensures { result ≡ start + link_width s.j s.l }
{
    start + link_width(s.j, s.l)
}

// The row of link k.
pub fn link_of(links: &[u64], s: Setting, k: usize) -> &[u64]
    requires l_value { sizes_form s.n s.j s.l ≡ true }
    requires l_in_bounds { links_words s.n s.j s.l ≤ length links.now }
    requires k_bound { k < s.n * (s.n - 1) }
    ensures { result.now ≡ link_row s links.now k }
{
    let start = link_row(s, k);
    let end = link_end(s, start);
    &links[start..end]
}

// Neither slice is too short for the sizes.
pub fn has_words(site: &[u64], links: &[u64], s: Setting) -> bool
    requires { sizes_form s.n s.j s.l ≡ true }
    ensures { result ≡ words_form s site.now links.now }
{
    let rows = s.n as usize * row::row_width(s.j);
    let pairs = link_count(s) * link_width(s.j, s.l);
    (GENERAL + rows <= site.len()) & (pairs <= links.len())
}

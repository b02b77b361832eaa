// The mail body: each link from its first place on.
ghost use Rattle.std.specs.Prelude.{[], ◌*◌, ◌≤◌, length};
ghost use Rattle.rules.specs.Sizes.{most_loads};
ghost use Rattle.letter.specs.Place.{letter_at};
ghost use Rattle.letter.specs.Lent.{PlaceSized};
ghost use Rattle.link.specs.Link.{place_width, link_width};
ghost use Rattle.link.specs.Holds.{LinkSizes, LinkWords, Holds};
ghost use Rattle.cells.specs.Cells.{chain, Many, Has};
ghost use Rattle.cells.specs.Stored.{HoldsRows, StoredIs};
ghost use Rattle.image.specs.Image.{letter_bytes, link_bytes};
ghost use Rattle.image.specs.Parts.{GoodLetter, GoodLink};
ghost use Rattle.store.specs.Store.{HoldsLetter};

use words::size;

// A letter goes into its place.
fn store_letter(src: &[u8], at: usize, j: u32, place: &mut [u64]) -> usize
    requires place_sized { PlaceSized j place.old }
    requires has { Has letter_bytes (GoodLetter j) src.now at }
    ensures { StoredIs letter_bytes (GoodLetter j) src.now at
        (HoldsLetter j place.new) result }
{
    let kind = letter::kind_of(le::get_at(src, at, 4));
    let groups = image::letter_groups(kind);
    cells::get_headed(src, at, &groups, letter::HEAD, letter::COUNT, 0, place)
}

// n letters go into the first n places. By index and not by chunks: there may be more places.
fn store_letters(src: &[u8], at: usize, n: usize, j: u32, places: &mut [u64]) -> usize
    requires j_le_most_loads { j ≤ most_loads }
    requires j_in_bounds { n * place_width j ≤ length places.old }
    requires has { Has (chain letter_bytes) (Many (λ i. GoodLetter j) n) src.now at }
    ensures { StoredIs (chain letter_bytes) (Many (λ i. GoodLetter j) n) src.now at
        (HoldsRows (HoldsLetter j) (place_width j) n (letter_at []) places.old
        places.new) result }
{
    let w = letter::HEAD + j as usize;
    let mut p = at;
    for i in 0..n {
        let a = words::row_at(i, w, n);
        p = store_letter(src, p, j, &mut places[a..a + w]);
    }
    p
}

// A link goes into its row: its first place is place 0, so its ring does not go round.
fn store_link(src: &[u8], at: usize, j: u32, l: u32, row: &mut [u64]) -> usize
    requires link_words { LinkWords j l row.old }
    requires has { Has link_bytes (GoodLink j l) src.now at }
    ensures { StoredIs link_bytes (GoodLink j l) src.now at
        (Holds j l row.new) result }
{
    let end = row.len();
    let mut w = [0u64; 1];
    let p = cells::get_words(src, at, 4, &mut w);
    let count = size(w[0]);
    row[0] = 0;
    row[1] = w[0];
    store_letters(src, p, count, j, &mut row[2..end])
}

// The m links of the mail body go into their rows.
pub fn store_links(src: &[u8], at: usize, m: usize, j: u32, l: u32, links: &mut [u64]) -> usize
    requires link_sizes { LinkSizes j l }
    requires l_in_bounds { m * link_width j l ≤ length links.old }
    requires has { Has (chain link_bytes) (Many (λ i. GoodLink j l) m) src.now at }
    ensures { StoredIs (chain link_bytes) (Many (λ i. GoodLink j l) m) src.now at
        (HoldsRows (Holds j l) (link_width j l) m [] links.old links.new) result }
{
    let w = memory::link_width(j, l);
    let mut p = at;
    for i in 0..m {
        let a = words::row_at(i, w, m);
        p = store_link(src, p, j, l, &mut links[a..a + w]);
    }
    p
}

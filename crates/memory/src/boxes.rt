// The boxes: one takes its turn, all are elected or fresh.
ghost use Rattle.std.specs.Prelude.{◌≡◌, true, ◌+◌, ◌-◌, ◌≤◌, length};
ghost use Rattle.rules.specs.Sizes.{sizes_form};
ghost use Rattle.rules.specs.Box.{own, mail, turn_of, turned};
ghost use Rattle.rules.specs.Site.{fresh_box, is_box, upd};
ghost use Rattle.rules.specs.Own.{elected_box};
ghost use Rattle.words.specs.Rows.{part};
ghost use Rattle.letter.specs.Place.{letter_at, place_form};
ghost use Rattle.row.specs.Row.{box_of, row_form};
ghost use Rattle.link.specs.Link.{place_width};
ghost use Rattle.memory.specs.Memory.{site_words, row_at};
ghost use Rattle.memory.specs.After.{
  boxes_of,
  BoxLent,
  RowSet,
  RowsPut,
  Playable,
  setting_for,
  elected_boxes,
  BoxesLent,
};

use crate::places;
use rules::model::{Act, Setting, Turn};

// What a step of its own makes of box me.
pub fn act_turn(site: &[u64], s: Setting, a: Act) -> Turn
    requires { BoxLent s site.now }
    ensures { result ≡ turn_of s (boxes_of s site.now s.me) (own a) }
{
    row::act_turn(places::row_of(site, s, s.me), s, a)
}

// What the mail in the place that begins at p, from a sender, makes of box me.
pub fn mail_turn(site: &[u64], links: &[u64], s: Setting, sender: u32, p: usize) -> Turn
    requires box_lent { BoxLent s site.now }
    requires j_in_bounds { p + place_width s.j ≤ length links.now }
    requires j_value { place_form s.j (part links.now p (place_width s.j)) ≡ true }
    ensures { result ≡ turn_of s (boxes_of s site.now s.me)
        (mail sender (letter_at (part links.now p (place_width s.j)))) }
{
    let width = letter::HEAD + s.j as usize;
    let end = p + width;
    row::mail_turn(places::row_of(site, s, s.me), &links[p..end], s, sender)
}

// Box me has taken its turn, by the mail in that place.
fn play_row(site: &mut [u64], place: &[u64], s: Setting, t: Turn)
    requires { Playable s site.old (letter_at place.now).records t }
    ensures { RowSet s s.me
        (turned (boxes_of s site.old s.me) t (letter_at place.now).records)
        site.old site.new }
{
    let start = places::row_start(s, s.me);
    let end = start + row::row_width(s.j);
    row::play(&mut site[start..end], place, s.n, s.j, t);
}

// Box me has taken its turn, by the mail in the place from p to q; where they are one, by none.
pub fn play(site: &mut [u64], links: &[u64], s: Setting, p: usize, q: usize, t: Turn)
    requires p_le_q { (p ≤ q) × (q ≤ length links.now) }
    requires playable { Playable s site.old (letter_at (part links.now p (q - p))).records t }
    ensures { RowsPut s
        (upd (boxes_of s site.old) s.me
        (turned (boxes_of s site.old s.me) t
        (letter_at (part links.now p (q - p))).records))
        site.old site.new }
{
    play_row(site, &links[p..q], s, t);
}

// Box b when c is elected.
fn elect_row(site: &mut [u64], s: Setting, b: u32, c: u32)
    requires l_value { sizes_form s.n s.j s.l ≡ true }
    requires j_in_bounds { site_words s.n s.j ≤ length site.old }
    requires b_value { is_box s.n b ≡ true }
    requires b_value_2 { row_form s.n s.j b (row_at s.j site.old b) ≡ true }
    ensures { RowSet s b
        (elected_box (setting_for s b) c (box_of s.n (row_at s.j site.old b)))
        site.old site.new }
{
    let start = places::row_start(s, b);
    let end = start + row::row_width(s.j);
    let known = Setting { me: b, ..s };
    row::elect(&mut site[start..end], known, c);
}

// Every box when c is elected.
pub fn elect_rows(site: &mut [u64], s: Setting, c: u32)
    requires { BoxesLent s site.old }
    ensures { RowsPut s (elected_boxes s c (boxes_of s site.old))
        site.old site.new }
{
    for b in 1..=s.n {
        elect_row(site, s, b, c);
    }
}

// Box b is fresh, whatever its words were.
fn fresh_row(site: &mut [u64], s: Setting, b: u32)
    requires l_value { sizes_form s.n s.j s.l ≡ true }
    requires j_in_bounds { site_words s.n s.j ≤ length site.old }
    requires b_value { is_box s.n b ≡ true }
    ensures { RowSet s b fresh_box site.old site.new }
{
    let start = places::row_start(s, b);
    let end = start + row::row_width(s.j);
    row::fresh(&mut site[start..end], s.j);
}

// Every box is fresh, whatever the words were.
pub fn fresh_rows(site: &mut [u64], s: Setting)
    requires l_value { sizes_form s.n s.j s.l ≡ true }
    requires j_in_bounds { site_words s.n s.j ≤ length site.old }
    ensures { RowsPut s (λ b. fresh_box) site.old site.new }
{
    for b in 1..=s.n {
        fresh_row(site, s, b);
    }
}

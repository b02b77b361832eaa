// By form, of the words, whatever they are.
ghost use Rattle.std.specs.Prelude.{◌≡◌, true, cond, ◌+◌, ◌-◌, ◌*◌, ◌≤◌, ◌<◌, length};
ghost use Rattle.rules.specs.Sizes.{sizes_form};
ghost use Rattle.rules.specs.Site.{is_box};
ghost use Rattle.memory.specs.Memory.{site_words, links_words, memory_form};
ghost use Rattle.memory.specs.Parts.{
  general_form,
  row_test,
  leads_test,
  rows_form,
  link_test,
  links_form,
};

use crate::general::{EPOCH, GENERAL, J, L, N, PRESENT};
use crate::{general, places};
use rules::model::Setting;
use rules::ranges;

// The sizes, the epoch and the present set are by form, whatever the words are.
pub fn is_general(site: &[u64]) -> bool
    ensures { result ≡ general_form site.now }
{
    if site.len() < GENERAL {
        return false;
    }
    if !ranges::are_sizes(site[N], site[J], site[L]) {
        return false;
    }
    let present = values::is_set(values::number(site[N]), site[PRESENT]);
    let epoch = site[EPOCH];
    (1 <= epoch) & (epoch <= 1000000) & present
}

fn is_row_by_form(site: &[u64], s: Setting, b: u32) -> bool
    requires l_value { sizes_form s.n s.j s.l ≡ true }
    requires j_in_bounds { site_words s.n s.j ≤ length site.now }
    requires b_value { is_box s.n b ≡ true }
    ensures { result ≡ row_test s site.now b }
{
    row::is_by_form(places::row_of(site, s, b), s.n, s.j, b)
}

// 1 where box b leads.
fn leader(site: &[u64], s: Setting, b: u32) -> u32
    requires l_value { sizes_form s.n s.j s.l ≡ true }
    requires j_in_bounds { site_words s.n s.j ≤ length site.now }
    requires b_value { is_box s.n b ≡ true }
    ensures { result ≡ cond (leads_test s site.now b) 1 0 }
{
    let row = places::row_of(site, s, b);
    if row[row::FLAG] == 1 {
        return 1;
    }
    0
}

// Every box is by form, and at most one leads.
fn are_rows_by_form(site: &[u64], s: Setting) -> bool
    requires l_value { sizes_form s.n s.j s.l ≡ true }
    requires j_in_bounds { site_words s.n s.j ≤ length site.now }
    ensures { result ≡ rows_form s site.now }
{
    let mut leaders = 0;
    for b in 1..=s.n {
        if !is_row_by_form(site, s, b) {
            return false;
        }
        leaders += leader(site, s, b);
    }
    leaders <= 1
}

fn is_link_by_form(links: &[u64], s: Setting, k: usize) -> bool
    requires l_value { sizes_form s.n s.j s.l ≡ true }
    requires l_in_bounds { links_words s.n s.j s.l ≤ length links.now }
    requires k_bound { k < s.n * (s.n - 1) }
    ensures { result ≡ link_test s links.now (k + 1) }
{
    link::is_by_form(places::link_of(links, s, k), s.j, s.l)
}

fn are_links_by_form(links: &[u64], s: Setting) -> bool
    requires l_value { sizes_form s.n s.j s.l ≡ true }
    requires l_in_bounds { links_words s.n s.j s.l ≤ length links.now }
    ensures { result ≡ links_form s links.now }
{
    let count = places::link_count(s);
    for k in 0..count {
        if !is_link_by_form(links, s, k) {
            return false;
        }
    }
    true
}

// The words hold a site by form. What holds no part of it is not read.
pub fn is_by_form(site: &[u64], links: &[u64]) -> bool
    ensures { result ≡ memory_form site.now links.now }
{
    if !is_general(site) {
        return false;
    }
    let s = general::setting_of(site, 0);
    if !places::has_words(site, links, s) {
        return false;
    }
    if !are_rows_by_form(site, s) {
        return false;
    }
    are_links_by_form(links, s)
}

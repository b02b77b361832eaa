// What an image by form holds is stored into the lent words.
#![tactic(auto)]

ghost use Rattle.cells.specs.Cells.{Has};
ghost use Rattle.image.specs.Parts.{listed_bytes, GoodListed};
ghost use Rattle.store.specs.Store.{RoomFor, SiteStored};

pub mod boxes;
pub mod mail;

// The bodies that stand at `at`: the general words, the boxes and the mail.
pub fn store_site(src: &[u8], at: usize, site: &mut [u64], links: &mut [u64])
    requires has { Has listed_bytes GoodListed src.now at }
    requires room_for { RoomFor src.now at site.old links.old }
    ensures { SiteStored src.now at site.old links.old
        site.new links.new }
{
    let end = site.len();
    let p = cells::get_words(src, at, 4, &mut site[0..memory::GENERAL]);
    let s = memory::setting_of(site, 0);
    let m = memory::link_count(s);
    let q = boxes::store_boxes(src, p, s.n, s.j, &mut site[memory::GENERAL..end]);
    mail::store_links(src, q, m, s.j, s.l, links);
}

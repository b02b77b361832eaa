// A box, a link or a letter, word by word.
use crate::lent::Ground;
use crate::show;
use crate::spots::{
    LINK_COUNT, LINK_HEAD, PLACE_COUNT, PLACE_HEAD, ROW_COUNT, ROW_HEAD, after, get, link_at,
    place_width, row_at,
};

// What begins at `at`: its head, and the records that are counted in it.
fn counted(w: &[u64], at: usize, head: usize, count: usize) {
    let records = get(w, at.wrapping_add(count)) as usize;
    show::text(b" |");
    show::words(w, at, at.wrapping_add(head).wrapping_add(records));
}

// A place and the records that it holds.
pub(crate) fn letter(w: &[u64], at: usize) {
    counted(w, at, PLACE_HEAD, PLACE_COUNT);
}

impl Ground<'_> {
    // The words of box c, and the records that it holds.
    pub(crate) fn see_row(&self, c: u64) {
        counted(self.site, row_at(self.z.j, c), ROW_HEAD, ROW_COUNT);
        show::text(b"\n");
    }

    // The mails of the link from a to b.
    pub(crate) fn see_link(&self, a: u64, b: u64) {
        let z = self.z;
        let at = link_at(z.n, z.j, z.l, a, b);
        let count = get(self.links, at.wrapping_add(LINK_COUNT)) as usize;
        let mut p = get(self.links, at) as usize;
        show::text(b" | ");
        show::number(count as u64);
        for _ in 0..count {
            letter(self.links, at.wrapping_add(place_at(z.j, p)));
            p = after(p, z.l as usize);
        }
        show::text(b"\n");
    }
}

fn place_at(j: u32, p: usize) -> usize {
    p.wrapping_mul(place_width(j)).wrapping_add(LINK_HEAD)
}

// A line of the paper's trace on the words that are lent, between a copy of them and a look.
use crate::lent::Ground;
use crate::{lent, show, spots};
use lines::Line;
use rules::model::{Answer, Call};

impl Ground<'_> {
    fn note(&mut self) {
        let (site, links) = (&mut *self.site, &mut *self.links);
        lent::copy(site, self.site_before);
        lent::copy(links, self.links_before);
    }

    fn answered(&self, a: Answer) {
        let kept = lent::same(self.links, self.links_before);
        show::answer(a, kept & self.is_site_kept());
        show::standing(self.z, self.site);
    }

    fn fresh(&mut self) {
        self.note();
        let z = self.z;
        let a = site::fresh(self.site, self.links, z.n, z.j, z.l);
        self.answered(a);
    }

    // What the call must leave of these links, where it discarded a mail: that link without its
    // head, and every other word.
    fn hand_over(&mut self, call: Call, a: Answer) {
        if let (Answer::Discarded(_), Call::Deliver(a, b)) = (a, call) {
            let z = self.z;
            let at = spots::link_at(z.n, z.j, z.l, a as u64, b as u64);
            spots::hand_over(self.links_before, at, z.l);
        }
    }

    fn call(&mut self, call: Call) {
        self.note();
        let a = site::step(self.site, self.links, call);
        self.hand_over(call, a);
        self.answered(a);
    }

    // Nothing can change here: the words are only read.
    fn holds(&self, c: u32, k: u32, left: u32, right: u32) {
        show::answer_number(site::holds(self.site, self.links, c, k, left, right));
        show::standing(self.z, self.site);
    }

    pub(crate) fn trace_line(&mut self, s: &[u8]) {
        match lines::read_line(s) {
            Line::Site(n, j, l) => {
                self.z = self.z.sized(n, j, l);
                self.fresh();
            }
            Line::Call(c) => self.call(c),
            Line::Holds(c, k, left, right) => self.holds(c, k, left, right),
            Line::Unreadable => show::text(b" | unreadable\n"),
        }
    }
}

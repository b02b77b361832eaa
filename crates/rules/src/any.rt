// The rules of a box for any caller: nothing is required, and what lies outside the ranges is
// refused with 1.
ghost use Rattle.std.specs.Prelude.{◌≡◌};
ghost use Rattle.rules.specs.Bounds.{bounded_box, bounded_mail, any_mail, any_act};

use crate::model::{Act, Answer, BoxState, Mail, Refusal, Setting, Turn};
use crate::ranges;

impl Mail {
    pub(crate) fn bounded(self) -> bool
        ensures { result ≡ bounded_mail self }
    {
        ranges::are_bounded(self.pn, self.last, self.first)
    }
}

impl BoxState {
    pub(crate) fn bounded(self, s: Setting) -> bool
        ensures { result ≡ bounded_box self s }
    {
        let k = self.kept;
        ranges::are_bounded(k.pn, k.last, k.first) & (s.me <= 5) & (s.j <= 4096)
    }

    // Any mail from a sender: `one` is its first record (0: none), `next` what it holds at its
    // last+1, `mine` what this box holds at its own.
    pub fn any_mail(
        self,
        s: Setting,
        sender: u32,
        m: Mail,
        one: u64,
        next: Option<u64>,
        mine: Option<u64>,
    ) -> Turn
        ensures { result ≡ any_mail self s sender m one next mine }
    {
        let box_fits = self.bounded(s);
        let mail_fits = m.bounded();
        let fits = box_fits & mail_fits;
        if fits {
            return self.on_mail(s, sender, m, one, next, mine);
        }
        self.stay(Answer::Refused(Refusal::Form))
    }

    // Any step of the box itself; `mine` is what this box holds at its last+1.
    pub fn any_act(self, s: Setting, a: Act, mine: Option<u64>) -> Turn
        ensures { result ≡ any_act self s a mine }
    {
        let fits = self.bounded(s);
        if fits {
            return self.act(a, s, mine);
        }
        self.stay(Answer::Refused(Refusal::Form))
    }
}

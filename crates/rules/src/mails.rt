// What a box does with each kind of mail but Last, and with any mail.
ghost use Rattle.std.specs.Prelude.{◌≡◌, ◌+◌};
ghost use Rattle.rules.specs.Bounds.{BoundedKept, BoundedSetting, BoundedMail};
ghost use Rattle.rules.specs.Mails.{
  unagreed_of,
  on_collect,
  begin_verdict,
  on_begin,
  accept_verdict,
  on_accept,
  on_commit,
  on_lease,
  lease_ack_verdict,
  on_lease_ack,
  of_kind,
  on_mail,
};

use crate::model::{
    Book, BoxState, Kept, Kind, Mail, Out, Phase, Refusal, Setting, State, Turn, Verdict,
};
use crate::{parts, sets, turns};

impl Kept {
    pub(crate) fn unagreed(self, mine: Option<u64>) -> u32
        requires { BoundedKept self }
        ensures { result ≡ unagreed_of self mine }
    {
        match mine {
            Some(_) => self.under(),
            None => 0,
        }
    }
}

impl BoxState {
    pub(crate) fn on_collect(self, sender: u32, m: Mail, mine: Option<u64>) -> Turn
        requires { BoundedKept self.kept }
        ensures { result ≡ on_collect self sender m mine }
    {
        let k = self.kept;
        let unagreed = k.unagreed(mine);
        let pn = k.pn.max(m.pn);
        let kept = k.promise(pn);
        let v = turns::first_cause(self.leads, false, false, false, Verdict::Go);
        let b = BoxState {
            state: State::Recovering,
            kept: kept,
            ..self
        };
        let last = turns::mail_from(k.first, Kind::Last, pn, k.last, unagreed);
        let t = b.takes(Book::Keep, Out::To(sets::bit_of(sender), last));
        self.settle(v, t)
    }

    pub(crate) fn judge_begin(self, s: Setting, m: Mail) -> Verdict
        requires kept { BoundedKept self.kept }
        requires setting { BoundedSetting s }
        requires mail { BoundedMail m }
        ensures { result ≡ begin_verdict self s m }
    {
        let k = self.kept;
        let room = parts::room_next(s.j, parts::higher(k.first, m.first), k.last);
        turns::first_cause(
            self.leads,
            false,
            k.pn != m.pn,
            k.last != m.last,
            turns::unless(room, Refusal::Book, Verdict::Go),
        )
    }

    pub(crate) fn on_begin(self, s: Setting, sender: u32, m: Mail, r: u64) -> Turn
        requires kept { BoundedKept self.kept }
        requires setting { BoundedSetting s }
        requires mail { BoundedMail m }
        ensures { result ≡ on_begin self s sender m r }
    {
        let k = self.kept;
        let last = k.last;
        let agreed = parts::span(k.first, last);
        let kept = k
            .store(m.pn, last + 1)
            .keep(parts::higher(k.first, m.first));
        let v = self.judge_begin(s, m);
        let b = BoxState {
            state: State::Updating,
            kept: kept,
            ..self
        };
        let accept = turns::mail_of(Kind::Accept, m.pn, last, 0);
        let book = Book::Put(k.dropped(m.first), agreed, r);
        let t = b.takes(book, Out::To(sets::bit_of(sender), accept));
        self.settle(v, t)
    }

    pub(crate) fn judge_accept(self, m: Mail) -> Verdict
        ensures { result ≡ accept_verdict self m }
    {
        turns::first_cause(
            !self.leads,
            self.phase != Phase::Begin,
            self.kept.pn != m.pn,
            self.kept.last != m.last,
            Verdict::Go,
        )
    }

    pub(crate) fn on_accept(self, sender: u32, m: Mail) -> Turn
        ensures { result ≡ on_accept self sender m }
    {
        let v = self.judge_accept(m);
        let b = BoxState {
            accepts: sets::with_box(self.accepts, sender),
            ..self
        };
        self.settle(v, b.takes(Book::Keep, Out::Nothing))
    }

    pub(crate) fn on_commit(self, m: Mail) -> Turn
        requires kept { BoundedKept self.kept }
        requires mail { BoundedMail m }
        ensures { result ≡ on_commit self m }
    {
        let k = self.kept;
        let best = self.best;
        let v = turns::first_cause(self.leads, false, false, false, Verdict::Go);
        let kept = k.take(m.first, m.last);
        let b = BoxState {
            best: best.clear(kept.last),
            kept: kept,
            ..self
        };
        let t = b.takes(k.take_book(m.first, m.last), Out::Nothing);
        self.settle(v, t)
    }

    pub(crate) fn on_lease(self, sender: u32, m: Mail) -> Turn
        ensures { result ≡ on_lease self sender m }
    {
        let v = turns::first_cause(
            self.leads,
            false,
            false,
            self.kept.last != m.last,
            Verdict::Go,
        );
        let b = BoxState {
            state: State::Active,
            ..self
        };
        let ack = turns::mail_of(Kind::LeaseAck, 0, self.kept.last, 0);
        let t = b.takes(Book::Keep, Out::To(sets::bit_of(sender), ack));
        self.settle(v, t)
    }

    pub(crate) fn judge_lease_ack(self) -> Verdict
        ensures { result ≡ lease_ack_verdict self }
    {
        turns::first_cause(
            !self.leads,
            self.phase != Phase::Lease,
            false,
            false,
            Verdict::Go,
        )
    }

    pub(crate) fn on_lease_ack(self, sender: u32) -> Turn
        ensures { result ≡ on_lease_ack self sender }
    {
        let v = self.judge_lease_ack();
        let b = BoxState {
            heard: sets::with_box(self.heard, sender),
            ..self
        };
        self.settle(v, b.takes(Book::Keep, Out::Nothing))
    }

    // A match and no table: each kind has a method of its own, with what its rule needs.
    pub(crate) fn of_kind(
        self,
        kind: Kind,
        s: Setting,
        sender: u32,
        m: Mail,
        one: u64,
        next: Option<u64>,
        mine: Option<u64>,
    ) -> Turn
        requires kept { BoundedKept self.kept }
        requires setting { BoundedSetting s }
        requires mail { BoundedMail m }
        ensures { result ≡ of_kind kind self s sender m one next mine }
    {
        match kind {
            Kind::Collect => self.on_collect(sender, m, mine),
            Kind::Last => self.on_last(s, sender, m, next),
            Kind::Begin => self.on_begin(s, sender, m, one),
            Kind::Accept => self.on_accept(sender, m),
            Kind::Commit => self.on_commit(m),
            Kind::Lease => self.on_lease(sender, m),
            Kind::LeaseAck => self.on_lease_ack(sender),
        }
    }

    pub(crate) fn on_mail(
        self,
        s: Setting,
        sender: u32,
        m: Mail,
        one: u64,
        next: Option<u64>,
        mine: Option<u64>,
    ) -> Turn
        requires kept { BoundedKept self.kept }
        requires setting { BoundedSetting s }
        requires mail { BoundedMail m }
        ensures { result ≡ on_mail self s sender m one next mine }
    {
        let k = m.kind;
        let t = self.of_kind(k, s, sender, m, one, next, mine);
        let v = turns::unless(sets::is_even(s.epoch), Refusal::Condition, Verdict::Go);
        self.settle(v, t)
    }
}

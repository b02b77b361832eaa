// The steps that a box takes by itself, for its own part, and what an election makes of a box.
ghost use Rattle.std.specs.Prelude.{◌≡◌, ◌+◌};
ghost use Rattle.rules.specs.Bounds.{BoundedKept, BoundedSetting};
ghost use Rattle.rules.specs.Steps.{
  elected,
  can_recover,
  recover,
  can_collect,
  best_held,
  collect,
  started,
  leased,
  can_ready,
  has_previous,
  ready,
  can_offer,
  offer,
  can_propose,
  propose,
  can_agree,
  agree,
  can_finish,
  finish,
  can_heard,
  lease_heard,
  can_trim,
  trim,
  acted,
};

use crate::model::{
    Act, Best, Book, BoxState, Kept, Kind, Out, Phase, Refusal, Setting, State, Turn, Verdict,
};
use crate::{parts, ranges, sets, turns};

impl Kept {
    pub(crate) fn best_held(self, mine: Option<u64>) -> Best
        requires { BoundedKept self }
        ensures { result ≡ best_held self mine }
    {
        let Some(r) = mine else {
            return Best::none();
        };
        Best {
            pn: self.under(),
            number: self.last + 1,
            value: r,
        }
    }
}

impl BoxState {
    // What the election of box c makes of this box.
    pub fn elected(self, s: Setting, c: u32) -> BoxState
        ensures { result ≡ elected self s c }
    {
        let alone = sets::count(s.present) == 1;
        BoxState {
            leads: s.me == c,
            state: turns::pick(alone, State::Active, State::Recovering),
            phase: Phase::Election,
            waiting: 0,
            agreeing: 0,
            ..self
        }
    }

    pub(crate) fn can_recover(self, s: Setting) -> bool
        ensures { result ≡ can_recover self s }
    {
        sets::is_even(s.epoch)
            & self.leads
            & (self.phase == Phase::Election)
            & (self.state == State::Recovering)
            & (1 < sets::count(s.present))
    }

    pub(crate) fn recover(self, s: Setting) -> Turn
        requires kept { BoundedKept self.kept }
        requires setting { BoundedSetting s }
        ensures { result ≡ recover self s }
    {
        let k = self.kept;
        let pn = sets::new_pn(k.pn, s.me);
        let kept = k.promise(pn);
        let w = turns::unless(pn <= ranges::MOST_PN, Refusal::NewPn, Verdict::Go);
        let v = turns::unless(self.can_recover(s), Refusal::Condition, w);
        let b = BoxState {
            kept: kept,
            phase: Phase::SendCollect,
            ..self
        };
        self.settle(v, b.does(Book::Keep, Out::Nothing))
    }

    pub(crate) fn can_collect(self, s: Setting) -> bool
        ensures { result ≡ can_collect self s }
    {
        sets::is_even(s.epoch)
            & self.leads
            & (self.state == State::Recovering)
            & (self.phase == Phase::SendCollect)
    }

    pub(crate) fn collect(self, s: Setting, mine: Option<u64>) -> Turn
        requires { BoundedKept self.kept }
        ensures { result ≡ collect self s mine }
    {
        let k = self.kept;
        let best = k.best_held(mine);
        let v = turns::unless(self.can_collect(s), Refusal::Condition, Verdict::Go);
        let peers = [ranges::UNKNOWN; 5];
        let b = BoxState {
            peers: peers,
            answered: sets::bit_of(s.me),
            best: best,
            phase: Phase::Collect,
            ..self
        };
        let m = turns::mail_of(Kind::Collect, k.pn, k.last, 0);
        self.settle(v, b.does(Book::Keep, Out::To(s.others(), m)))
    }

    pub(crate) fn start(self, s: Setting, r: u64) -> Turn
        requires { BoundedKept self.kept }
        ensures { result ≡ started self s r }
    {
        let k = self.kept;
        let last = k.last;
        let agreed = parts::span(k.first, last);
        let kept = k.store(k.pn, last + 1);
        let b = BoxState {
            kept: kept,
            agreeing: r,
            accepts: sets::bit_of(s.me),
            phase: Phase::Begin,
            ..self
        };
        let m = turns::mail_from(k.first, Kind::Begin, k.pn, last, 0);
        b.does(Book::Put(0, agreed, r), Out::To(s.others(), m))
    }

    pub(crate) fn lease(self, s: Setting) -> Turn
        ensures { result ≡ leased self s }
    {
        let b = BoxState {
            state: State::Active,
            heard: sets::bit_of(s.me),
            phase: Phase::Lease,
            ..self
        };
        let m = turns::mail_of(Kind::Lease, 0, self.kept.last, 0);
        b.does(Book::Keep, Out::To(s.others(), m))
    }

    pub(crate) fn can_ready(self, s: Setting) -> bool
        ensures { result ≡ can_ready self s }
    {
        sets::is_even(s.epoch)
            & self.leads
            & (self.phase == Phase::Collect)
            & (self.answered == s.present)
    }

    pub(crate) fn has_previous(self) -> bool
        requires { BoundedKept self.kept }
        ensures { result ≡ has_previous self }
    {
        (self.best.number == self.kept.last + 1) & (self.best.value != 0)
    }

    pub(crate) fn ready(self, s: Setting) -> Turn
        requires kept { BoundedKept self.kept }
        requires setting { BoundedSetting s }
        ensures { result ≡ ready self s }
    {
        let previous = self.has_previous();
        let room = parts::room_next(s.j, self.kept.first, self.kept.last);
        let peers = [ranges::UNKNOWN; 5];
        let b = BoxState {
            peers: peers,
            ..self
        };
        let u = BoxState {
            state: State::UpdatingPrevious,
            ..b
        };
        let t = turns::pick(previous, u.start(s, self.best.value), b.lease(s));
        let w = turns::unless(!previous | room, Refusal::Book, Verdict::Go);
        let v = turns::unless(self.can_ready(s), Refusal::Condition, w);
        self.settle(v, t)
    }

    pub(crate) fn can_offer(self, s: Setting) -> bool
        ensures { result ≡ can_offer self s }
    {
        sets::is_even(s.epoch) & self.leads & (self.state == State::Active) & (self.waiting == 0)
    }

    pub(crate) fn offer(self, s: Setting, left: u32, right: u32) -> Turn
        ensures { result ≡ offer self s left right }
    {
        let r = left as u64 * ranges::FRAME + right as u64;
        let b = BoxState { waiting: r, ..self };
        let w = turns::unless(self.can_offer(s), Refusal::Condition, Verdict::Go);
        let v = turns::unless((0 < left) & (0 < right), Refusal::Frame, w);
        self.settle(v, b.does(Book::Keep, Out::Nothing))
    }

    pub(crate) fn can_propose(self, s: Setting) -> bool
        ensures { result ≡ can_propose self s }
    {
        let waits = (self.phase == Phase::Lease)
            | (self.phase == Phase::LeaseDone)
            | (self.phase == Phase::Election);
        sets::is_even(s.epoch)
            & self.leads
            & (self.state == State::Active)
            & waits
            & (self.waiting != 0)
    }

    pub(crate) fn propose(self, s: Setting) -> Turn
        requires kept { BoundedKept self.kept }
        requires setting { BoundedSetting s }
        ensures { result ≡ propose self s }
    {
        let b = BoxState {
            state: State::Updating,
            waiting: 0,
            ..self
        };
        let t = b.start(s, self.waiting);
        let room = parts::room_next(s.j, self.kept.first, self.kept.last);
        let w = turns::unless(room, Refusal::Book, Verdict::Go);
        let v = turns::unless(self.can_propose(s), Refusal::Condition, w);
        self.settle(v, t)
    }

    pub(crate) fn can_agree(self, s: Setting, mine: Option<u64>) -> bool
        ensures { result ≡ can_agree self s mine }
    {
        let updating = (self.state == State::Updating) | (self.state == State::UpdatingPrevious);
        sets::is_even(s.epoch)
            & self.leads
            & (self.phase == Phase::Begin)
            & updating
            & sets::includes_all(self.accepts, s.present)
            & mine.is_some()
    }

    pub(crate) fn agree(self, s: Setting, mine: Option<u64>) -> Turn
        requires { BoundedKept self.kept }
        ensures { result ≡ agree self s mine }
    {
        let k = self.kept;
        let last = k.last + 1;
        let kept = k.reach(last);
        let b = BoxState {
            kept: kept,
            agreeing: 0,
            state: State::Refresh,
            phase: Phase::Commit,
            ..self
        };
        let m = turns::mail_from(k.first, Kind::Commit, k.pn, last, 0);
        let t = b.does(Book::Keep, Out::To(s.others(), m));
        let v = turns::unless(self.can_agree(s, mine), Refusal::Condition, Verdict::Go);
        self.settle(v, t)
    }

    pub(crate) fn can_finish(self, s: Setting) -> bool
        ensures { result ≡ can_finish self s }
    {
        sets::is_even(s.epoch)
            & self.leads
            & (self.state == State::Refresh)
            & (self.phase == Phase::Commit)
    }

    pub(crate) fn finish(self, s: Setting) -> Turn
        ensures { result ≡ finish self s }
    {
        let v = turns::unless(self.can_finish(s), Refusal::Condition, Verdict::Go);
        self.settle(v, self.lease(s))
    }

    pub(crate) fn can_heard(self, s: Setting) -> bool
        ensures { result ≡ can_heard self s }
    {
        sets::is_even(s.epoch)
            & self.leads
            & (self.phase == Phase::Lease)
            & sets::includes_all(self.heard, s.present)
    }

    pub(crate) fn lease_heard(self, s: Setting) -> Turn
        ensures { result ≡ lease_heard self s }
    {
        let v = turns::unless(self.can_heard(s), Refusal::Condition, Verdict::Go);
        let b = BoxState {
            phase: Phase::LeaseDone,
            ..self
        };
        self.settle(v, b.does(Book::Keep, Out::Nothing))
    }

    pub(crate) fn can_trim(self, s: Setting, k: u32) -> bool
        requires { BoundedSetting s }
        ensures { result ≡ can_trim self s k }
    {
        sets::is_even(s.epoch)
            & sets::has(s.present, s.me)
            & (self.kept.first < k)
            & (k <= self.kept.last)
    }

    pub(crate) fn trim(self, s: Setting, k: u32) -> Turn
        requires { BoundedSetting s }
        ensures { result ≡ trim self s k }
    {
        let own = self.kept;
        let can = self.can_trim(s, k);
        let v = turns::unless(can, Refusal::Condition, Verdict::Go);
        let kept = own.keep(k);
        let b = BoxState { kept: kept, ..self };
        self.settle(v, b.does(Book::Drop(own.dropped(k)), Out::Nothing))
    }

    // A match and no table: each step has a method of its own, with what its rule needs.
    pub(crate) fn act(self, a: Act, s: Setting, mine: Option<u64>) -> Turn
        requires kept { BoundedKept self.kept }
        requires setting { BoundedSetting s }
        ensures { result ≡ acted a self s mine }
    {
        match a {
            Act::Recover => self.recover(s),
            Act::Collect => self.collect(s, mine),
            Act::Ready => self.ready(s),
            Act::Offer(left, right) => self.offer(s, left, right),
            Act::Propose => self.propose(s),
            Act::Agree => self.agree(s, mine),
            Act::Finish => self.finish(s),
            Act::Heard => self.lease_heard(s),
            Act::Trim(k) => self.trim(s, k),
        }
    }
}

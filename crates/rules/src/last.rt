// What a leader that collects does with a Last.
ghost use Rattle.std.specs.Prelude.{◌≡◌, ◌+◌, ◌≤◌};
ghost use Rattle.rules.specs.Sizes.{most_boxes};
ghost use Rattle.rules.specs.Bounds.{BoundedKept, BoundedSetting, BoundedMail};
ghost use Rattle.rules.specs.Last.{
  noted,
  told,
  behind,
  lagging,
  improves,
  bettered,
  raised,
  counted,
  uncounted,
  replied,
  last_verdict,
  on_last,
};

use crate::model::{Best, BoxState, Kind, Mail, Out, Phase, Refusal, Setting, Turn, Verdict};
use crate::{ranges, sets, turns};

pub(crate) fn note(known: [u32; 5], sender: u32, l: u32) -> [u32; 5]
    ensures { result ≡ noted known sender l }
{
    let mut peers = known;
    if (0 < sender) & (sender <= 5) {
        let i = (sender - 1) as usize;
        peers[i] = l;
    }
    peers
}

pub(crate) fn if_behind(peer: u32, last: u32, v: u32) -> u32
    ensures { result ≡ behind peer last v }
{
    turns::pick((peer != ranges::UNKNOWN) & (peer < last), v, 0)
}

// The five peers written out, as in specs/Last: a loop would be longer by its invariant.
pub(crate) fn laggards(peers: [u32; 5], last: u32, s: Setting) -> u32
    ensures { result ≡ lagging peers last s }
{
    let others = s.others();
    others
        & (if_behind(peers[0], last, 1)
            | (if_behind(peers[1], last, 2)
                | (if_behind(peers[2], last, 4)
                    | (if_behind(peers[3], last, 8) | if_behind(peers[4], last, 16)))))
}

impl Best {
    pub(crate) fn improved_by(self, last: u32, m: Mail) -> bool
        requires { BoundedMail m }
        ensures { result ≡ improves last self m }
    {
        (last <= m.last) & (self.number <= m.last + 1) & (self.pn <= m.unagreed)
    }

    // The record that the mail holds at last+1 is taken apart, or it goes on to clearing.
    pub(crate) fn better(self, last: u32, m: Mail, next: Option<u64>) -> Best
        requires { BoundedMail m }
        ensures { result ≡ bettered last self m next }
    {
        let Some(r) = next else {
            return self.clear(last);
        };
        let b = Best {
            pn: m.unagreed,
            number: m.last + 1,
            value: r,
        };
        turns::pick(self.improved_by(last, m), b, self.clear(last))
    }
}

impl BoxState {
    pub(crate) fn be_told(self, sender: u32, m: Mail) -> BoxState
        ensures { result ≡ told self sender m }
    {
        let known = self.peers;
        let k = self.kept;
        let peers = note(known, sender, m.last);
        let kept = k.take(m.first, m.last);
        BoxState {
            peers: peers,
            kept: kept,
            ..self
        }
    }

    pub(crate) fn raise(self, me: u32, m: Mail) -> BoxState
        requires mail { BoundedMail m }
        requires me_le_most_boxes { me ≤ most_boxes }
        ensures { result ≡ raised self me m }
    {
        let k = self.kept;
        let b = self.best;
        let kept = k.promise(sets::new_pn(m.pn, me));
        let best = b.clear(k.last);
        BoxState {
            kept: kept,
            phase: Phase::SendCollect,
            best: best,
            ..self
        }
    }

    pub(crate) fn count(self, sender: u32, m: Mail, next: Option<u64>) -> BoxState
        requires { BoundedMail m }
        ensures { result ≡ counted self sender m next }
    {
        let answered = sets::with_box(self.answered, sender);
        let k = self.kept;
        let b = self.best;
        let best = b.better(k.last, m, next);
        BoxState {
            answered: answered,
            best: best,
            ..self
        }
    }

    pub(crate) fn pass(self) -> BoxState
        ensures { result ≡ uncounted self }
    {
        let k = self.kept;
        let b = self.best;
        let best = b.clear(k.last);
        BoxState { best: best, ..self }
    }

    pub(crate) fn answer(self, me: u32, sender: u32, m: Mail, next: Option<u64>) -> BoxState
        requires mail { BoundedMail m }
        requires me_le_most_boxes { me ≤ most_boxes }
        ensures { result ≡ replied self me sender m next }
    {
        let above = self.raise(me, m);
        let equal = self.count(sender, m, next);
        let below = self.pass();
        let rest = turns::pick(m.pn == self.kept.pn, equal, below);
        turns::pick(self.kept.pn < m.pn, above, rest)
    }

    pub(crate) fn judge_last(self, s: Setting, m: Mail) -> Verdict
        requires setting { BoundedSetting s }
        requires mail { BoundedMail m }
        ensures { result ≡ last_verdict self s m }
    {
        let fits = sets::new_pn(m.pn, s.me) <= ranges::MOST_PN;
        let room = turns::unless((m.pn <= self.kept.pn) | fits, Refusal::NewPn, Verdict::Go);
        turns::first_cause(
            !self.leads,
            self.phase != Phase::Collect,
            false,
            false,
            room,
        )
    }

    pub(crate) fn on_last(self, s: Setting, sender: u32, m: Mail, next: Option<u64>) -> Turn
        requires kept { BoundedKept self.kept }
        requires setting { BoundedSetting s }
        requires mail { BoundedMail m }
        ensures { result ≡ on_last self s sender m next }
    {
        let k = self.kept;
        let book = k.take_book(m.first, m.last);
        let v = self.judge_last(s, m);
        let told = self.be_told(sender, m);
        let b = told.answer(s.me, sender, m, next);
        let known = self.peers;
        let took = k.take(m.first, m.last);
        let to = laggards(note(known, sender, m.last), took.last, s);
        let commit = turns::mail_from(took.first, Kind::Commit, k.pn, took.last, 0);
        let t = b.takes(book, Out::To(to, commit));
        self.settle(v, t)
    }
}

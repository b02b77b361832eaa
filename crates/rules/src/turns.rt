// Verdicts and turns. Each choice of the rules is one of these small functions, so that a rule
// itself is straight.
ghost use Rattle.std.specs.Prelude.{◌≡◌};
ghost use Rattle.rules.specs.Pick.{pick};
ghost use Rattle.rules.specs.Turns.{first_cause, unless, still, settled, taken, done};
ghost use Rattle.rules.specs.Turns.{mail_of, mail_from};

use crate::model::{Answer, Book, BoxState, Cause, Kind, Mail, Out, Refusal, Turn, Verdict};

// The first that applies of the four causes, and else what v says.
pub(crate) fn first_cause(role: bool, phase: bool, number: bool, place: bool, v: Verdict) -> Verdict
    ensures { result ≡ first_cause role phase number place v }
{
    if role {
        return Verdict::Discard(Cause::Role);
    }
    if phase {
        return Verdict::Discard(Cause::Phase);
    }
    if number {
        return Verdict::Discard(Cause::Number);
    }
    if place {
        return Verdict::Discard(Cause::Place);
    }
    v
}

pub fn unless(t: bool, why: Refusal, v: Verdict) -> Verdict
    ensures { result ≡ unless t why v }
{
    if t { v } else { Verdict::Refuse(why) }
}

impl BoxState {
    // Nothing changes, nothing is sent.
    pub(crate) fn stay(self, a: Answer) -> Turn
        ensures { result ≡ still self a }
    {
        Turn {
            answer: a,
            next: self,
            book: Book::Keep,
            out: Out::Nothing,
        }
    }

    // The turn t, or the discard or refusal that the verdict says.
    pub(crate) fn settle(self, v: Verdict, t: Turn) -> Turn
        ensures { result ≡ settled self v t }
    {
        match v {
            Verdict::Go => t,
            Verdict::Discard(why) => self.stay(Answer::Discarded(why)),
            Verdict::Refuse(why) => self.stay(Answer::Refused(why)),
        }
    }

    // Two words of the paper: a mail is taken, a step is done.
    pub(crate) fn takes(self, k: Book, o: Out) -> Turn
        ensures { result ≡ taken self k o }
    {
        Turn {
            answer: Answer::Taken,
            next: self,
            book: k,
            out: o,
        }
    }

    pub(crate) fn does(self, k: Book, o: Out) -> Turn
        ensures { result ≡ done self k o }
    {
        Turn {
            answer: Answer::Done,
            next: self,
            book: k,
            out: o,
        }
    }
}

// A mail of the kinds that carry the sender's first ..
pub(crate) fn mail_from(first: u32, kind: Kind, pn: u32, last: u32, unagreed: u32) -> Mail
    ensures { result ≡ mail_from first kind pn last unagreed }
{
    Mail {
        kind: kind,
        pn: pn,
        last: last,
        first: first,
        unagreed: unagreed,
    }
}

// .. and of the others.
pub(crate) fn mail_of(kind: Kind, pn: u32, last: u32, unagreed: u32) -> Mail
    ensures { result ≡ mail_of kind pn last unagreed }
{
    mail_from(0, kind, pn, last, unagreed)
}

// One of two that are both there.
pub(crate) fn pick<T: Copy>(t: bool, a: T, b: T) -> T
    ensures { result ≡ pick t a b }
{
    if t { a } else { b }
}

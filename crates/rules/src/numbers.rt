// The paper's number for every case of every enum.
ghost use Rattle.std.specs.Prelude.{◌≡◌};
ghost use Rattle.rules.specs.Numbers.{
  state_number,
  phase_number,
  kind_number,
  cause_number,
  refusal_number,
  answer_number,
};

use crate::model::{Answer, Cause, Kind, Phase, Refusal, State};

impl From<State> for u32 {
    ghost from_gives = { λ state n. n ≡ state_number state };

    fn from(state: State) -> u32 {
        state as u32
    }
}

impl From<Phase> for u32 {
    ghost from_gives = { λ phase n. n ≡ phase_number phase };

    fn from(phase: Phase) -> u32 {
        phase as u32
    }
}

impl From<Kind> for u32 {
    ghost from_gives = { λ kind n. n ≡ kind_number kind };

    fn from(kind: Kind) -> u32 {
        kind as u32
    }
}

impl From<Cause> for u32 {
    ghost from_gives = { λ cause n. n ≡ cause_number cause };

    fn from(cause: Cause) -> u32 {
        cause as u32
    }
}

impl From<Refusal> for u32 {
    ghost from_gives = { λ why n. n ≡ refusal_number why };

    fn from(why: Refusal) -> u32 {
        why as u32
    }
}

impl From<Answer> for u32 {
    ghost from_gives = { λ a n. n ≡ answer_number a };

    fn from(a: Answer) -> u32 {
        match a {
            Answer::Done => 0,
            Answer::Taken => 100,
            Answer::Discarded(why) => 100 + u32::from(why),
            Answer::Refused(why) => u32::from(why),
        }
    }
}

// The same two by a name.
pub fn refusal_number(f: Refusal) -> u32
    ensures { result ≡ refusal_number f }
{
    u32::from(f)
}

pub fn answer_number(a: Answer) -> u32
    ensures { result ≡ answer_number a }
{
    u32::from(a)
}

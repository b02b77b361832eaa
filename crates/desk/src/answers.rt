// What the desk answers, and the paper's numbers.
ghost use Rattle.std.specs.Prelude.{◌≡◌};
ghost use Rattle.desk.specs.Desk.{why_number, number_of};
ghost use Rattle.desk.specs.declared.answers.Why.{Why};

use rules::model::Refusal;
use rules::numbers;

#[derive(Clone, Copy)]
pub enum Side {
    Left,
    Right,
}

// Why the desk refuses: too few words, a frame 0, a number that waits already, a full side, a frame
// that does not wait, no right frame near enough; or the engine does.
#[derive(Clone, Copy)]
pub enum Why {
    Words,
    Frame,
    Waits,
    Full,
    Away,
    Far,
    Engine(Refusal),
}

impl From<Refusal> for Why {
    ghost from_gives = { λ r why. why ≡ Why.Engine r };

    fn from(r: Refusal) -> Why {
        Why::Engine(r)
    }
}

pub fn why_number(why: Why) -> u32
    ensures { result ≡ why_number why }
{
    match why {
        Why::Words => 12,
        Why::Frame => 10,
        Why::Waits => 19,
        Why::Full => 20,
        Why::Away => 23,
        Why::Far => 21,
        Why::Engine(refusal) => numbers::refusal_number(refusal),
    }
}

// 0, or the refusal's number.
pub fn number_of<T: Copy>(answer: Result<T, Why>) -> u32
    ensures { result ≡ number_of answer }
{
    match answer {
        Ok(_) => 0,
        Err(why) => why_number(why),
    }
}

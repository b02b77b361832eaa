// The cases of an answer.
ghost use Rattle.std.specs.Prelude.{◌≡◌};
ghost use Rattle.rules.specs.Answers.{is_refusal, is_accepted};

use crate::model::Answer;

pub fn is_accepted(a: Answer) -> bool
    ensures { result ≡ is_accepted a }
{
    matches!(a, Answer::Done | Answer::Taken)
}

pub fn is_refusal(a: Answer) -> bool
    ensures { result ≡ is_refusal a }
{
    matches!(a, Answer::Refused(_))
}

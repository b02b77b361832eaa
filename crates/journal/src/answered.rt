// What a call answers for C: 0 or the refusal's number, and what is lent for the rest.
ghost use Rattle.std.specs.Prelude.{◌≡◌};
ghost use Rattle.journal.specs.Answered.{number_of, or_before};

use rules::model::Refusal;
use rules::numbers::refusal_number;

pub(crate) fn number_of<T: Copy>(answer: Result<T, Refusal>) -> u32
    ensures { result ≡ number_of answer }
{
    match answer {
        Ok(_) => 0,
        Err(why) => refusal_number(why),
    }
}

// What was lent, where the call is refused.
pub(crate) fn or_before<T: Copy, E: Copy>(answer: Result<T, E>, before: T) -> T
    ensures { result ≡ or_before answer before }
{
    match answer {
        Ok(value) => value,
        Err(_) => before,
    }
}

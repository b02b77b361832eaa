// What a run answers.
use rules::model::Refusal;

// It ran, and used so many steps; a refused step stopped it, after so many; or the call was
// refused. A Result of a struct with an Option would say the three ends no more plainly.
#[derive(Clone, Copy)]
pub enum Run {
    Ran(u32),
    Stopped(Refusal, u32),
    Refused(Refusal),
}

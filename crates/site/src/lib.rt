// The engine: a fresh site, any call, a holds line, who has not answered a lease, on two slices of
// words that the caller lends.
#![tactic(auto)]

mod elections;
mod entries;
mod mail;
mod presence;
mod start;
mod turns;
mod verdicts;

pub use entries::{holds, holds_formed, step, step_formed, unheard, unheard_formed};
pub use start::fresh;

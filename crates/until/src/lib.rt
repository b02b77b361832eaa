// The run after an election (Q-9) on two slices of words that the caller lends, and what it would
// do next.
#![tactic(auto)]

mod entries;
mod leader;
mod mail;
mod turns;

pub use entries::{next_turn, run, run_formed};
pub use leader::leader_formed;

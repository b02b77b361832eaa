// The pairing desk (Q-13): left and right frames wait in words that the caller lends, and a pair
// is offered to the leader of a site.
#![tactic(auto)]

pub mod answers;
mod entries;
mod near;
mod pairs;
mod sides;

pub use entries::{give, pair, withdraw};

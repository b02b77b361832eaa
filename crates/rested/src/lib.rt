// The step `rest` (Q-6) on two slices of words that the caller lends.
#![tactic(auto)]

mod boxes;
mod entries;

pub use entries::{rest, rest_formed};

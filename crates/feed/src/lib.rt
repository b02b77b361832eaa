// Feeds a trace to the replay piece by piece, with the site in words that the caller lends.
#![tactic(auto)]

mod answer;
mod entries;
pub mod held;
mod piece;
mod settle;
pub mod state;
mod tell;

pub use entries::{feed_end, feed_piece, is_ended, start};
pub use piece::feed_formed;

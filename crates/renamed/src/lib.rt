// Traces under the published step names, and back (Q-11).
#![tactic(auto)]

pub mod entries;
pub mod judge;
pub mod line;
pub mod names;
pub mod text;

// The types of the paper and the rules of one box, each proved to give exactly what specs/ says.
#![tactic(auto)]

pub mod answers;
pub mod any;
mod last;
mod mails;
pub mod model;
pub mod numbers;
pub mod parts;
pub mod ranges;
pub mod sets;
mod steps;
pub mod turns;
pub mod unheard;

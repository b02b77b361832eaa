// The run after an election (Q-9): what it answers. What it is and how soon it ends stands in
// specs/ and proofs/.
#![tactic(auto)]

pub mod model;

#![tactic(auto)]

// Demand 3 of questions and answers (specs/, proofs/). No code.

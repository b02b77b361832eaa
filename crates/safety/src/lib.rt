#![tactic(auto)]

// Demand 3 (specs/, proofs/). No code.

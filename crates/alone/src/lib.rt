#![tactic(auto)]

// Boxes by themselves keep demand 3 (specs/, proofs/). No code.

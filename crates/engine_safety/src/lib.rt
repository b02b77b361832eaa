// Demand 3 of the engine's own entries (specs/, proofs/). No code.
#![tactic(auto)]

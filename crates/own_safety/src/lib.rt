// Demand 3 of boxes by themselves, of the entries that each of them calls (specs/, proofs/). No
// code.
#![tactic(auto)]

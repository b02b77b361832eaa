#![tactic(auto)]

// A site at rest, and the step that puts one at rest (Q-6), over the model (specs/, proofs/). No
// code.

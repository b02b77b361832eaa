// For the stereo gate: what holds of any run of calls at the desk and of the engine (specs/,
// proofs/). No code.
#![tactic(auto)]

// The engines that the paper shuts out by name (specs/, proofs/). No code.
#![tactic(auto)]

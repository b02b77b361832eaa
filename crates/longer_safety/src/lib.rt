// For the weigh house: the lists of two boxes of one site never differ (specs/, proofs/). No code.
#![tactic(auto)]

// The replay of a trace: definitions in specs/, theorems in proofs/.
#![tactic(auto)]

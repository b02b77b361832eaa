// Demand 3 of the lines of a trace (specs/, proofs/). No code.

// Demand 3 of the functions for C (specs/, proofs/). No code.

// Theorems about the model (proofs/), for everyone who comes after. No code.

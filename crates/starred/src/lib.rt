// The starred cases of the paper: definitions and one theorem, no code.
#![tactic(auto)]

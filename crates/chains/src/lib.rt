// The mathematics of one author's chain: definitions and theorems, no code.
#![tactic(auto)]

// A store after an admission: theorems, no code.
#![tactic(auto)]

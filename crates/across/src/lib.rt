// Two stores that number their rows differently: definitions and theorems over what is sent and read, no code.
#![tactic(auto)]

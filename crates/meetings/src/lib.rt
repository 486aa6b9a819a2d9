// Studios that meet in no fixed order: definitions and theorems over the answers of the merge of frontiers, no code.
#![tactic(auto)]

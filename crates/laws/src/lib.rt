// What follows from the definitions of document 01 alone: proofs/ holds the laws and theorems, and there is no code.
#![tactic(auto)]

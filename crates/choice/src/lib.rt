// What follows of the selection of runs that counts, whatever the rules earn: proofs/ holds the laws and theorems, and there is no code.
#![tactic(auto)]

// Laws of lists that are filled from the front, piece after piece: proofs/ holds them, and there is no code.
#![tactic(auto)]

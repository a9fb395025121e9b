// The cheapest route: what follows from its definition alone. proofs/ holds the laws and theorems, and there is no code.
#![tactic(auto)]

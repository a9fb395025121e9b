// All pairs of stations, each once, in order: what follows from the pair lister's definition alone. proofs/ holds the laws and theorems, and there is no code.
#![tactic(auto)]

// The lines of document 01 that are marked P, as one table of proved cases, and its example of the pair lister. There is no code.
#![tactic(auto)]

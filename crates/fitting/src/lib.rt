// What fits the word of the C face: places, counts, and that no part of it runs into another. Proofs only.
#![tactic(auto)]

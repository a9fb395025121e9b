// The demands on the whole system: proofs/Demands.antt states them over the definitions and the contracts. There is no code.
#![tactic(auto)]

// What the C face tells: words, and the numbers of answers.
#![tactic(auto)]

pub mod answers;
pub mod words;

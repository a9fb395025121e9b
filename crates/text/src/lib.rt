// Blocks of the input, bytes out of hex digits, lines of text, and the line of an answer: what the programs are made of.
#![tactic(auto)]

pub mod answers;
pub mod blocks;
pub mod digits;
pub mod lines;
mod scratch;

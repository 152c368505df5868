// Lines, tokens, numbers and names of a file of bytes, and what can be wrong with the bytes of a line.
#![tactic(auto)]

mod bytes;
pub mod findings;
pub mod lines;
pub mod numbers;
pub mod placed;
pub mod takes;
pub mod tokens;
pub mod words;

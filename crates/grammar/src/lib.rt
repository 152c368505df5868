// The grammar of the rule file and the lot file, and what can be wrong with the tokens of a line.
#![tactic(auto)]

pub mod passes;
pub mod state;
pub mod steps;

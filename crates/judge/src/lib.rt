// Why a file is refused, and the judgement of a line by itself.
#![tactic(auto)]

pub mod cases;
pub mod faults;
pub mod lines;

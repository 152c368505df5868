// A lot file read into a list of lots.
#![tactic(auto)]

pub mod list;
pub mod questions;
mod reading;
pub mod sharing;

// A rule file read into a book.
#![tactic(auto)]

pub mod judging;
mod passes;
pub mod questions;
mod reading;
pub mod rule_book;

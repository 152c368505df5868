// The check of a book that was read, and the table of its lines with numbers for names.
#![tactic(auto)]

pub mod checked;
pub mod checking;
pub mod judging;
mod kind;
mod names;
pub mod questions;
mod resolving;

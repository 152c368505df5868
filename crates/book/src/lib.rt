// The lines of a checked book: what each asks of a scope and does with it, and which line applies.
#![tactic(auto)]

pub mod body;
mod checking;
mod choosing;
pub mod guard;
pub mod line;
pub mod table;

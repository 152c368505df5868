// Rows: the lengths that a split or a repeat cuts from a scope along an axis.
#![tactic(auto)]

mod gather;
pub mod laws;
pub mod making;
pub mod part;
pub mod parts;
pub mod refusal;
pub mod repeat;
pub mod row;
mod shares;
pub mod size;
pub mod split;
pub mod tile;

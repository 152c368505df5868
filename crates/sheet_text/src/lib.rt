// The texts of a sheet, a refused file and a block, in the caller's buffer.
#![tactic(auto)]

pub mod block;
mod boxes;
pub mod cases;
pub mod ending;
pub mod limits;
pub mod refused;
pub mod sheet;

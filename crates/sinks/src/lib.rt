// What takes blocks: the trait, its meaning, the tallies that every sink keeps, the block list and the raster.
#![tactic(auto)]

pub mod grid;
pub mod laws;
pub mod list;
pub mod offers;
pub mod raster;
pub mod refusal;
pub mod sink;
pub mod tally;

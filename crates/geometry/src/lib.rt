// Millimetres, weights, axes, triples, boxes of the site, blocks and scopes.
#![tactic(auto)]

pub mod axis;
pub mod block;
mod boxes;
pub mod cell;
pub mod cuboid;
pub mod laws;
pub mod limits;
pub mod scope;
pub mod span;
pub mod triple;
pub mod units;

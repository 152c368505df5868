// Sinks that write text: the OBJ drawing and the bill of material, with the writers of lines and numbers.
#![tactic(auto)]

pub mod bill;
mod bytes;
pub mod drawing;
pub mod laws;
pub mod line;
mod lines;
mod obj_lines;
mod out;
pub mod sheet;
mod writing;

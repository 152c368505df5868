// What single lines of the two files say, read into structs. Names stand apart from the rest, as parts of the file.
#![tactic(auto)]

mod body;
mod front;
mod guards;
pub mod lists;
pub mod lot;
pub mod lots;
pub mod material;
mod part;
pub mod rule;
pub mod rules;
pub mod shape;
mod split;
mod tokens;
mod words;

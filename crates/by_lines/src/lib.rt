// Files that are read line by line.
#![tactic(auto)]

pub mod files;

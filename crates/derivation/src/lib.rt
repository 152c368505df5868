// The derivation: what a number of steps makes of waiting scopes, and the laws that hold of it.
#![tactic(auto)]

pub mod laws;

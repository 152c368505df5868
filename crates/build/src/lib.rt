// Builds: open, run, question and close, and the laws over any list of calls.
#![tactic(auto)]

pub mod build;
pub mod calls;
pub mod closing;
pub mod joined;
pub mod laws;
pub mod opening;
pub mod sheet;

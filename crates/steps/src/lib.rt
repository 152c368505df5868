// Steps of a build over a stack of waiting scopes and a sink, and runs of them.
#![tactic(auto)]

mod acting;
mod laying;
pub mod running;
pub mod stop;
mod telling;

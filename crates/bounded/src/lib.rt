// Lists of at most N entries that ask for no memory as they grow: in a vector whose memory is reserved when it is made, or in the value itself.
#![tactic(auto)]

pub mod bounded;
pub mod full;
pub mod inline;
pub mod methods;

//! Runs walk over offered steps: what a thread takes in a run of the graphs is offered wherever a
//! post-solution stands for the moment. The function is its contract alone and does nothing.
#![tactic(auto)]

mod law;

pub use law::walks_are_offered;

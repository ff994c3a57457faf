//! What a choice does in the graphs of a unit: which edge is taken, the return and the silent edges
//! that follow, and the configuration in the end. Each function is its contract alone and does nothing.
#![tactic(auto)]

mod law;

pub use law::choices_are_made;

//! What a table shows is true of every run of the trees of a unit. The function is its
//! contract alone and does nothing.
#![tactic(auto)]

mod law;

pub use law::trees_are_shown;

//! Sets of held mutexes: sets of numbers below 8.
#![tactic(auto)]

mod locks;

pub use locks::Locks;

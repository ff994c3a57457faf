//! Readings worked out by hand: for each production of the grammar tokens with the tree that they
//! spell, trees that they don't spell, tokens that spell none, and the faults of those. Each function
//! is its contract alone and does nothing.
#![tactic(auto)]

mod by_hand;

pub use by_hand::{expressions_by_hand, faults_by_hand, statements_by_hand, units_by_hand};

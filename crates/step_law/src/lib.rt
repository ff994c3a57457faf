//! A choice keeps the trees and the graphs of a unit at the same moment. Each function is its contract
//! alone and does nothing.
#![tactic(auto)]

mod law;

pub use law::{choices_keep_together, together_stands};

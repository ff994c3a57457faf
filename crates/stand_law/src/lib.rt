//! What keeps a frame of trees and one of graphs at the same moment. Each function is its contract
//! alone and does nothing.
#![tactic(auto)]

mod law;

pub use law::{demands_are_met, inputs_keep_standing};

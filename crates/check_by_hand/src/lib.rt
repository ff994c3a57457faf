//! Bodies and items by hand: what the definitions of names, kinds and limits say of them. The
//! function is its contract alone and does nothing.
#![tactic(auto)]

mod examples;

pub use examples::checks_by_hand;

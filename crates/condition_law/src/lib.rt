//! The expressions that texts are have numbers that fit, so that the laws of watched intervals and of
//! stops hold of them without a condition. Each function is its contract alone and does nothing.
#![tactic(auto)]

mod law;

pub use law::{numbers_fit, stops_drop_nothing, watches_describe};

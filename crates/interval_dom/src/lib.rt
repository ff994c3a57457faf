//! Intervals of whole numbers: what is known of a variable, and of what is computed from it.
#![tactic(auto)]

mod cmp;
mod interval;
#[cfg(test)]
mod tests;
mod width;

pub use cmp::Cmp;
pub use interval::Interval;
pub use width::Width;

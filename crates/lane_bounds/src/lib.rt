//! Columns of numbers, compared and joined several places at a time.
#![tactic(auto)]

mod cmp;
mod covered;
mod joined;
mod lanes;
mod marked;
#[cfg(test)]
mod tests;

pub use cmp::Cmp;
pub use covered::le_all;
pub use joined::join_into;
pub use marked::may_hold;

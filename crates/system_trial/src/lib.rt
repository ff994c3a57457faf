//! Tests of the constraint system in the programs of small texts, worked out by hand: initial tables,
//! turns, a call that never returns, and the first breach of a table.
#![tactic(auto)]

#[cfg(test)]
mod breaches;
mod by_hand;
#[cfg(test)]
mod contexts;
#[cfg(test)]
mod nothing;
#[cfg(test)]
mod seen;
#[cfg(test)]
mod start;
#[cfg(test)]
mod texts;
#[cfg(test)]
mod turns;

pub use by_hand::stores_by_hand;

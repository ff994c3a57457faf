//! Editions of small texts: the tests of the graph, chains and editions over the whole way from a text
//! to a solved table. It stands apart so that those crates' own checks need not pay for it.
#![tactic(auto)]

mod asking;
#[cfg(test)]
mod chains;
#[cfg(test)]
mod graphs;
#[cfg(test)]
mod texts;

pub use asking::{at_node, goes_on, has_chain, offers, reads, stands_at};

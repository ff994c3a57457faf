//! Trials of the solver: runs of texts that are stopped, given back, and go on.
#![tactic(auto)]

mod begin;
#[cfg(test)]
mod turns;

pub use begin::run_of;

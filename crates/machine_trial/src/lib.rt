//! Tests of the machine of syntax trees by its readers, moment by moment.
#![tactic(auto)]

#[cfg(test)]
mod machines;

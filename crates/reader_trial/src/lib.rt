//! Trials of the index of readers: what is noted, noted again and forgotten.
#![tactic(auto)]

#[cfg(test)]
mod notes;

//! Tests of the words of the command line. They stand apart so that the crate of the words need not pay
//! for them.
#![tactic(auto)]

#[cfg(test)]
mod words;

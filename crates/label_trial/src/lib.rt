//! Tests of the texts of labels, one for each action. They stand apart so that the crate of the graph
//! need not pay for them.
#![tactic(auto)]

#[cfg(test)]
mod texts;

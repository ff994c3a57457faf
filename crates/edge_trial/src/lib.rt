//! Tests of what each action gives in the solved tables of small texts, worked out by hand.
#![tactic(auto)]

#[cfg(test)]
mod calls;
#[cfg(test)]
mod numbers;
#[cfg(test)]
mod threads;

//! Tests of states: each public call of `state_dom` once, with values worked out by hand.
#![tactic(auto)]

#[cfg(test)]
mod build_up;
#[cfg(test)]
mod guards;
#[cfg(test)]
mod operators;
#[cfg(test)]
mod orders;
#[cfg(test)]
mod programs;
#[cfg(test)]
mod raises;
#[cfg(test)]
mod values;

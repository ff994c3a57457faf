//! Tests of steps by edges and by statements in the editions of small texts, worked out by hand.
#![tactic(auto)]

#[cfg(test)]
mod edges;
#[cfg(test)]
mod moves;
#[cfg(test)]
mod texts;
#[cfg(test)]
mod together;

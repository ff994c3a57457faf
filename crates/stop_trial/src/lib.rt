//! Tests of breakpoints, conditions and watched expressions in the editions of small texts, worked out
//! by hand.
#![tactic(auto)]

#[cfg(test)]
mod lines;
#[cfg(test)]
mod stopping;
#[cfg(test)]
mod texts;
#[cfg(test)]
mod watching;

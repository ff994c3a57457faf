//! Tests of the graphs of small functions, each worked out by hand.
#![tactic(auto)]

#[cfg(test)]
mod branches;
#[cfg(test)]
mod build_up;
#[cfg(test)]
mod drawing;
#[cfg(test)]
mod inputs;
#[cfg(test)]
mod loops;
#[cfg(test)]
mod plain;
#[cfg(test)]
mod whole;

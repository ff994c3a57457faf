//! Trials of the parser: texts with their trees, and texts with the place of their fault.
#![tactic(auto)]

#[cfg(test)]
mod expressions;
#[cfg(test)]
mod faults;
#[cfg(test)]
mod programs;
#[cfg(test)]
mod show;
#[cfg(test)]
mod statements;
#[cfg(test)]
mod units;

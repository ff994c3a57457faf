//! Tests of the command `run` over files and sinks in memory: the lines of runs, and what each
//! status writes.
#![tactic(auto)]

#[cfg(test)]
mod devices;
#[cfg(test)]
mod ran;
#[cfg(test)]
mod refusals;
#[cfg(test)]
mod runs;

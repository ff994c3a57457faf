//! Trials of edits: what is carried over from one text to the next, and what is solved from there.
#![tactic(auto)]

mod begin;
#[cfg(test)]
mod edits;
#[cfg(test)]
mod functions;
mod loads;
#[cfg(test)]
mod mutexes;
mod shown;

pub use begin::{first_job, next_job, solved_from};
pub use loads::globals_end;
pub use shown::{carries, is_at_end, leaves_dirty, solves_to};

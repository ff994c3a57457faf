//! Texts as jobs and runs, and what a trial of the constraint system asks about them.
#![tactic(auto)]

mod asked;
mod begin;
mod partial;

pub use asked::{given, given_to, risen_by, turned};
pub use begin::{Unsolved, job_of, run_of, solved};
pub use partial::without;

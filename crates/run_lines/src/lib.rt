//! Schedules of choices, and the lines that a run of them prints.
#![tactic(auto)]

mod print;
mod schedule;

pub use print::print_run;
pub use schedule::read_schedule;

//! The solver: a job is a source with a table and its dirty points; a run of it makes turns, one after
//! another, and records them. Every table that it gives is the replay of its trace from the job's.
#![tactic(auto)]

mod budget;
mod job;
mod law;
mod loops;
mod noted;
mod order;
mod run;

pub use budget::solve;
pub use job::{Job, Outcome, Progress, Solved};
pub use law::runs_go_on;
pub use run::Run;

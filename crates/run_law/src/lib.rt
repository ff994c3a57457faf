//! Tables are true of runs: each post-solution describes each moment of each run of the graphs. Each
//! function is its contract alone and does nothing.
#![tactic(auto)]

mod law;

pub use law::{first_is_known, runs_are_known, steps_keep_known};

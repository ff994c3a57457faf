//! The constraint system of a program: its unknowns, the table of their values, what an edge gives
//! by its action, what a point gets from its edges, the turns that solve it, and the law of turns.
#![tactic(auto)]

mod arise;
mod dirty;
mod edges;
mod functions;
mod keys;
mod law;
mod plan;
mod readers;
mod start;
mod system;
mod table;
mod transfer;
mod turns;
mod unknown;
mod value;

pub use dirty::Dirty;
pub use edges::contribution;
pub use functions::function_at;
pub use law::{
    clean_is_post_solution, contributions_are_local, contributions_fit, initial_is_sound,
    initial_values_fit, post_solutions_bound_edges, replays_are_one, replays_are_sound,
    replays_go_on, turns_keep_sound, turns_keep_turnable, turns_only_raise,
};
pub use plan::{TurnPlan, plan_turn, risen};
pub use start::{initial, initial_value, main_start, main_start_value};
pub use system::System;
pub use table::Table;
pub use transfer::outcome;
pub use turns::{turn, turn_by};
pub use unknown::{ArgKey, Key, Unknown};
pub use value::{Contribution, Effect, Outcome, Value};

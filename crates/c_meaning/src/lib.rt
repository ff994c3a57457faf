//! What a program of GobPie's C profile means, as definitions: the value of an expression, the
//! steps of syntax trees, the graph of a function, the steps of graphs, and how the two belong
//! together. The definitions stand in `specs/`; the functions here carry laws about them.
#![tactic(auto)]

mod config;
mod demand;
mod examples;
mod laws;
mod rows;

pub use config::{Choice, Stepped, Todo};
pub use demand::Demand;
pub use examples::{
    calls_and_joins_by_hand, expressions_by_hand, graphs_by_hand, moments_by_hand,
    no_moments_by_hand, runs_by_hand, walks_by_hand,
};
pub use laws::{
    final_answers_stay, missing_takes_all, only_moves_change, prefixes_are_runs, silent_edges_end,
    silent_edges_run_out, silent_edges_stay_inside, steps_change_little,
};
pub use rows::{expression_rows, graph_rows, unrolling_rows};

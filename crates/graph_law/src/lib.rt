//! Laws of the graphs and the runs of units. Each function is its contract alone and does nothing.
#![tactic(auto)]

mod examples;
mod law;

pub use examples::{sizes_by_hand, widths_by_hand};
pub use law::{
    bodies_lie, branches_lie, first_stands, globals_fit, moves_are_runs, new_frames_stand,
    one_guard_at_most, one_way_out, programs_are_formed, silent_edges_are_moves,
    silent_edges_are_quiet, statements_are_laid, things_begin, unrolling_lies,
};

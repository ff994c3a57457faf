//! What is known of the variables and mutexes at a point of a program: its slots' intervals and
//! the mutexes that are surely held.
#![tactic(auto)]

mod evaluation;
mod examples;
mod guarding;
mod intervals;
mod law;
mod operators;
mod state;
mod thresholds;

pub use evaluation::{assign, eval, slot_width};
pub use examples::{
    descriptions_by_hand, evaluations_by_hand, guards_by_hand, order_by_hand, raises_by_hand,
    shapes_by_hand, stores_by_hand, thresholds_by_hand,
};
pub use guarding::guard;
pub use law::{
    assignment_describes, evaluation_describes, guard_keeps, guard_narrows, joins_and_raises_bound,
    order_describes,
};
pub use operators::{binary_interval, converted, interval_width, may_be, unary_interval};
pub use state::State;
pub use thresholds::Thresholds;

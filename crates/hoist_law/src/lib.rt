//! Laws of the ways that an expression's inputs take through the graph of its function. Each function
//! is its contract alone and does nothing.
#![tactic(auto)]

mod law;

pub use law::{edges_are_taken, hoisting_meets_demand, pieces_are_within, ways_lead_on};

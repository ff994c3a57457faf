//! A generated text and its eight edits, solved one after another: the text from its initial table, and
//! each edit from what the table before it leaves. Each table is checked apart from the solver.
#![tactic(auto)]

mod load;
mod loaded;
mod solving;

pub use load::load_tables;
pub use loaded::{LoadStop, Loaded};
pub use solving::TURNS;

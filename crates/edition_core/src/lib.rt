//! Editions: a source with its solved table, the table's graph and the turns that solved it; and the
//! printed table of a program.
#![tactic(auto)]

mod board;
mod edition;
mod labels;
mod pieces;
mod printed;

pub use board::{BoardStatus, Verdict};
pub use edition::{Edition, Trace};
pub use printed::{print_globals, print_table};

//! The trees of a program of GobPie's C profile, as plain data: syntax trees with their names
//! resolved, and the graphs that they become.
#![tactic(auto)]

mod boxed;
mod examples;
mod expr;
mod graph;
mod labels;
mod memory;
mod pieces;
mod place;
mod same;
mod seq;
mod stmt;
mod text;
mod unit;
mod words;

pub use boxed::Boxed;
pub use examples::{formed_by_hand, well_made_by_hand, words_by_hand};
pub use expr::{BinOp, Expr, UnOp, Width, copy_exprs};
pub use graph::{Action, Edge, FuncGraph, Program};
pub use labels::{labels_are_text, slot_labels};
pub use memory::Memory;
pub use pieces::{push_bytes, push_number, push_signed};
pub use place::Place;
pub use same::same_function;
pub use seq::Seq;
pub use stmt::{Placed, Stmt, Target};
pub use text::Text;
pub use unit::{FuncKind, Function, GlobalDecl, Slot, Unit};
pub use words::words_are_text;

#[cfg(test)]
mod tests;

//! Texts to load the program with: a C program of many functions drawn from a number, and eight
//! edits of it, each of one function.
#![tactic(auto)]

mod choice;
mod edits;
mod program;

pub use choice::{Choice, Form};
pub use edits::edits_of;
pub use program::program_of;

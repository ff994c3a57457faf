//! What one edge gives in the solved table of a text, in numbers that a test compares.
#![tactic(auto)]

mod asked;
mod seen;

pub use asked::{after, effect, read};
pub use seen::{Ends, Held, Seen, alone, key};

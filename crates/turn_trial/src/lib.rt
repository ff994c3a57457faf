//! Notes under the turn lock: a small value that several threads add to, for trials of the lock.
#![tactic(auto)]

mod notes;
mod play;
#[cfg(test)]
mod tests;

pub use notes::{Note, Notes};
pub use play::{say, say_often, see, see_more, serve, serve_often};

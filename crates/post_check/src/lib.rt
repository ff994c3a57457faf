//! A check of tables: whether a table is a post-solution of its program, and where it first isn't one.
//! It knows nothing of how the table was made.
#![tactic(auto)]

mod breach;
mod law;
mod missing;
mod unbounded;

pub use breach::{Breach, post_check};
pub use law::first_breach_is_one;

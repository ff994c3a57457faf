//! A value under a lock whose turns are served in the order of their tickets. The value keeps a list
//! of entries, its history, and each thread's pass knows a beginning of it.
#![tactic(auto)]

mod lock;
mod logged;
mod pass;
mod plays;
mod view;

pub use lock::{Held, TurnLock};
pub use logged::{Logged, Role};
pub use pass::Pass;

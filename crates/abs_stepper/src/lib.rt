//! Stepping through what an analysis shows: positions of threads that stand at one node, their steps by
//! single edges, and their moves by statements.
#![tactic(auto)]

mod choice;
mod fault;
mod law;
mod position;
mod statements;
mod stepping;
mod visited;

pub use fault::{MoveFault, StepFault};
pub use law::moves_are_one;
pub use position::{Position, Thread};
pub use statements::{advance, enter};
pub use stepping::{entry, offered, out, step};

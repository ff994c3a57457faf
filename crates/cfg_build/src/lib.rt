//! The graph of a function, exactly as the definition of graphs gives it, and which of its edges
//! are silent.
#![tactic(auto)]

mod builder;
mod drawing;
mod fault;
mod hoist;
mod lower;
mod marked;
mod route;

pub use drawing::{build, silent_edges};
pub use fault::BuildFault;

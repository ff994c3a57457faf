//! Names, kinds and limits: from trees with names as they are written to the unit that everything
//! else stands on, or the first fault.
#![tactic(auto)]

mod examples;
mod exprs;
mod fault;
mod graphs;
mod heads;
mod items;
mod keys;
mod law;
mod limits;
mod meaning;
mod named;
mod phases;
mod resolving;
mod rules;
mod scope;
mod simple;
mod stmts;
mod units;
mod visible;

pub use examples::limits_by_hand;
pub use fault::{FrontFault, FrontKind};
pub use law::{accepted_is_well_made, one_outcome, sources_are_analysable};
pub use limits::Counted;
pub use meaning::{Callee, Declared, Meaning, Signature};
pub use phases::front;
pub use resolving::resolve;

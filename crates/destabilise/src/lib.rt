//! What an edit may have touched of a solved table: what of the old program is in the new one, and the
//! unknowns that the new program can't take over.
#![tactic(auto)]

mod kind;
mod links;
mod marks;
mod matching;
mod removal;
mod seeds;

pub use links::Links;
pub use marks::Marks;
pub use matching::{Matching, matched};
pub use removal::{removed, removed_along, removed_is_least};

//! What an edit keeps: the solved table of the old program carried over to the new one, and the points
//! that are to be turned again.
#![tactic(auto)]

mod carrying;
mod entries;
mod kept;
mod lacking;
mod renaming;
mod roots;

pub use carrying::carry;

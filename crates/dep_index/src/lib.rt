//! Who reads what: the last noted reads of each reader, and the readers of each unknown.
#![tactic(auto)]

mod ascending;
mod gone;
mod index;
mod rows;

pub use index::DepIndex;

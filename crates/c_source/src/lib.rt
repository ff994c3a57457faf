//! Sources: texts that were read, each with its unit and its program.
#![tactic(auto)]

mod source;

pub use source::Source;

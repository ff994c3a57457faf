//! The words of the command line, read by `clap` exactly as the definition of their reading says.
#![tactic(auto)]

mod any;
mod arguments;
mod command;
mod laws;
mod line;
mod matches;
mod number;
mod said;

pub use command::read_command;
pub use laws::reading_is_spelled;
pub use line::CommandLine;

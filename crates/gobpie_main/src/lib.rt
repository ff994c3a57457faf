//! The top call: what a line of words asks for, done over files and a sink, with a status for each
//! way to end; and the edge at which the system gives the words and takes the exit status. A
//! command computes its answer over files alone, and one call tells it.
#![tactic(auto)]

mod analyse;
mod arguments;
mod batch;
mod edge;
mod fault;
mod load;
mod loading;
mod run;
mod status;
mod tell;
mod words;

pub use arguments::{Arguments, StdArguments};
pub use batch::run_batch;
pub use edge::{program, run_arguments};
pub use status::Status;
pub use words::{BuiltCommand, command_of};

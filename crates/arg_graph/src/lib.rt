//! The reachability graph of a table: the points that aren't Bottom, the steps that are offered at
//! each, the stacks of frames that steps move, and the texts of steps.
#![tactic(auto)]

mod expressions;
mod graph;
mod labels;
mod moving;
mod offered;
mod pieces;
mod stack;
mod vertex;

pub use expressions::slot_names;
pub use graph::{Graph, target};
pub use labels::label_text;
pub use moving::{moved, returned};
pub use stack::{Frame, Stack};
pub use vertex::{Label, Step, Vertex};

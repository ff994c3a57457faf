//! The machine of syntax trees: a concrete interpreter that makes one step at a time.
#![tactic(auto)]

mod act;
mod deed;
mod demand;
mod frame;
mod front;
mod look;
mod machine;
mod stack;
mod state;
mod todo;
mod value;
mod view;
mod way;

pub use c_meaning::{Choice, Stepped, Todo};
pub use machine::{Machine, RunEnd, run};
pub use todo::Next;
pub use view::{FrameView, TopView};

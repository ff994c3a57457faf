//! Breakpoints and watched expressions: the node of a line, the vertices at which a condition may hold,
//! and the interval of an expression at a vertex.
#![tactic(auto)]

mod columns;
mod comparison;
mod fault;
mod law;
mod lines;
mod naming;
mod placing;
mod reading;
mod stop;
mod stopping;
mod vertices;
mod watching;

pub use fault::WatchFault;
pub use law::{lines_have_one_node, stops_come_one_by_one, stops_drop_nothing, watches_describe};
pub use lines::resolve;
pub use stop::{Break, Stop};
pub use stopping::stops;
pub use watching::watch;

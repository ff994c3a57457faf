//! Chains: the shortest stacks of calls that lead to a vertex. Their definition stands in `specs`, over
//! vertices and steps; the search goes over numbers of vertices and contexts.
#![tactic(auto)]

mod calls;
mod distances;
mod hop;
mod hops;
mod law;
mod least;
mod roots;
mod stacking;
mod turned;

pub use calls::{Calls, chain};
pub use law::least_chains_are_one;

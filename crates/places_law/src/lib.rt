//! The fault that is told of names and kinds is the least one, by place and then by kind. The
//! functions are their contracts alone and do nothing.
#![tactic(auto)]

mod examples;
mod law;

pub use examples::order_by_hand;
pub use law::faults_ascend;

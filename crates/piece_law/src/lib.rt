//! What a function is well made gives of each statement that is met while its body is lowered. Each
//! function is its contract alone and does nothing.
#![tactic(auto)]

mod law;

pub use law::{pieces_are_made, unrolled_fronts_stay};

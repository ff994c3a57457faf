//! Trees and graphs stay together along every run of a unit. Each function is its contract alone and
//! does nothing.
#![tactic(auto)]

mod law;

pub use law::runs_stay_together;

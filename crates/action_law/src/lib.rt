//! The law of one action: what the analysis makes of an edge is true of what the edge does. Each
//! function is its contract alone and does nothing.
#![tactic(auto)]

mod law;

pub use law::{
    calls_enter_described, edges_lead_to_described, others_stay_described,
    returns_lead_to_described,
};

//! What an edit keeps of a solved table is a sound beginning for the new program.
#![tactic(auto)]

mod law;

pub use law::carried_is_sound;

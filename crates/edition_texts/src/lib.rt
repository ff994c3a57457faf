//! Editions of texts, and what a test asks of them: where steps lead, where breakpoints stop, and what
//! expressions are there. It stands apart so that the tests' own checks are short.
#![tactic(auto)]

mod asking;
mod begin;
mod pair;
mod shown;
mod stopping;
mod unanswered;
mod walk;
mod watching;

pub use asking::{copies, holds, offers, refusal, shows};
pub use begin::edition_of;
pub use shown::Shown;
pub use stopping::{Asked, resolves, stops_at};
pub use unanswered::Unanswered;
pub use walk::{Start, Walk, Way};
pub use watching::watched;

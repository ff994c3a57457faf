//! Trials of the whole front: texts with their units, texts with the place of their first fault,
//! and texts at the limits.
#![tactic(auto)]

#[cfg(test)]
mod faults;
#[cfg(test)]
mod kinds;
#[cfg(test)]
mod limits;
#[cfg(test)]
mod texts;
#[cfg(test)]
mod worker;

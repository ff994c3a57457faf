//! Tests of `load` over files and a sink in memory: what comes of generated programs under eight edits,
//! worked out by hand from the constants that are drawn.
#![tactic(auto)]

#[cfg(test)]
mod devices;
#[cfg(test)]
mod lines;
#[cfg(test)]
mod ran;
#[cfg(test)]
mod words;

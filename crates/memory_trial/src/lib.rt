//! A trial of the top call over files for which there is no memory.
#![tactic(auto)]

#[cfg(test)]
mod loading;

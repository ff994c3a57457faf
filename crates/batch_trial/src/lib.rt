//! Tests of the top call over files and sinks in memory: what each status writes, and what tables say.
#![tactic(auto)]

#[cfg(test)]
mod arguments;
#[cfg(test)]
mod budgets;
#[cfg(test)]
mod devices;
#[cfg(test)]
mod ran;
#[cfg(test)]
mod refusals;
#[cfg(test)]
mod sizes;
#[cfg(test)]
mod tables;

//! Tests of tables, of the look-up of edges, and of tables without a breach, on small texts.
#![tactic(auto)]

#[cfg(test)]
mod edges;
#[cfg(test)]
mod tables;
#[cfg(test)]
mod whole;

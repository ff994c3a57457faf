//! Tests of the protocol: bytes framed into messages, and messages read and written, the plain ones
//! and those at the edges: keys that stand twice, the deepest nesting, texts with every kind of
//! escape, and the greatest numbers.
#![tactic(auto)]

#[cfg(test)]
mod framing;
#[cfg(test)]
mod messages;
#[cfg(test)]
mod plain;
#[cfg(test)]
mod requests;
#[cfg(test)]
mod texts;

//! Tokens: the one longest cut of a C text into words, numbers and marks, or its first fault.
#![tactic(auto)]

mod cursor;
mod cutting;
mod fault;
mod law;
mod number;
mod piece;
#[cfg(test)]
mod tests;
mod token;
mod utf8;

pub use cursor::end_place;
pub use cutting::lex;
pub use fault::LexFault;
pub use law::one_cut;
pub use piece::Shape;
pub use token::{Token, TokenKind};

/// The greatest number of bytes that a text may have.
pub const TEXT_LIMIT: usize = 65_536;

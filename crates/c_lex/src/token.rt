use gob_tree::Place;

/// What a token is (C17 6.4).
#[derive(Clone, Copy, Debug, PartialEq, Eq)]
pub enum TokenKind {
    /// A letter or `_`, and the letters, digits and `_` after it: a keyword or a name.
    Word,
    /// A decimal number from 0 to 9223372036854775807. A suffix `L` or `l` is part of the token.
    Number(i64),
    /// An operator or a punctuator.
    Mark,
}

/// A token of a text: the bytes from `start` on and before `end`.
#[derive(Clone, Copy, Debug, PartialEq, Eq)]
pub struct Token {
    pub kind: TokenKind,
    /// The place of its first byte.
    pub place: Place,
    /// How many bytes stand before it.
    pub start: u32,
    /// How many bytes stand before what follows it.
    pub end: u32,
}

ghost use Rattle.std.specs.Prelude.{◌≡◌};
ghost use Rattle.c_lex.specs.declared.fault.LexFault.TheVariants.{Memory};

use gob_tree::Place;
use std::alloc::AllocFailed;
use thiserror::Error;

/// The first fault of a text that has no tokens.
#[derive(Clone, Copy, Debug, PartialEq, Eq, Error)]
pub enum LexFault {
    /// The text has more than `TEXT_LIMIT` bytes.
    #[error("the text is too long")]
    TooLong,
    /// The text is not UTF-8 (RFC 3629). The place is that of the first byte that can't go on what
    /// stands before it, or the one after the last byte where the text ends within a character.
    #[error("the text is not UTF-8")]
    NotText(Place),
    /// No token begins with the byte at this place.
    #[error("no token begins with this character")]
    BadCharacter(Place),
    /// The `/*` at this place has no end.
    #[error("this comment has no end")]
    OpenComment(Place),
    /// The run of letters and digits at this place begins with a digit and is no decimal number, or
    /// is one above 9223372036854775807.
    #[error("this is no number")]
    BadLiteral(Place),
    /// The `#` at this place begins a line, which isn't one of `#include`.
    #[error("this directive is not supported")]
    Unsupported(Place),
    /// Memory ran out. It tells nothing of the text.
    #[error("out of memory")]
    Memory,
}

impl<T: Drop> From<AllocFailed<T>> for LexFault {
    ghost from_gives = { λ _ fault. fault ≡ Memory };

    fn from(_error: AllocFailed<T>) -> LexFault {
        LexFault::Memory
    }
}

ghost use Rattle.std.specs.Prelude.{◌≡◌};
ghost use Rattle.c_parse.specs.declared.fault.ExprFault.TheVariants.{Memory as WantOfMemory};
ghost use Rattle.c_parse.specs.declared.fault.ParseFault.TheVariants.{Memory as MemoryOfUnit};

use gob_tree::{Memory, Place};
use thiserror::Error;

/// Why the tokens of a text are no unit. Of all faults it is the one at the least place.
#[derive(Clone, Copy, Debug, PartialEq, Eq, Error)]
pub enum ParseFault {
    /// No unit goes on with the token at this place after the tokens before it. At the end of the
    /// text it is the place after the last byte.
    #[error("this can't stand here")]
    Unexpected(Place),
    /// The same of a keyword of C17 (6.4.1) that the profile doesn't write.
    #[error("this keyword is not supported")]
    Unsupported(Place),
    /// A declaration or statement within 64 others, or the 65th operator of an expression.
    #[error("this is nested too deeply")]
    TooDeep(Place),
    /// Want of memory. It tells nothing of the text.
    #[error("out of memory")]
    Memory,
}

/// Why a text is no expression without calls.
#[derive(Clone, Copy, Debug, PartialEq, Eq, Error)]
pub enum ExprFault {
    /// The text isn't an expression, or it has a call, an arbitrary number or too many operators.
    #[error("this is no expression")]
    NotAnExpression,
    /// Want of memory. It tells nothing of the text.
    #[error("out of memory")]
    Memory,
}

impl From<Memory> for ExprFault {
    ghost from_gives = { λ _ fault. fault ≡ WantOfMemory };

    fn from(_want: Memory) -> ExprFault {
        ExprFault::Memory
    }
}

impl From<Memory> for ParseFault {
    ghost from_gives = { λ _ fault. fault ≡ MemoryOfUnit };

    fn from(_want: Memory) -> ParseFault {
        ParseFault::Memory
    }
}

ghost use Rattle.std.specs.Prelude.{◌≡◌};
ghost use Rattle.c_check.specs.Faults.{want_of_memory, fault_at, asks, Passes};

use gob_tree::{Memory, Place};

/// What is wrong with a text: in its bytes and tokens (`TooLong` to `Unsupported`), in its grammar
/// (`Unsupported` to `TooDeep`), in its names and types (`BadLiteral` to `WrongArity`), or as a
/// whole (`NoMain`, `Limit`).
#[derive(Clone, Copy, Debug, PartialEq, Eq)]
pub enum FrontKind {
    /// The text has more than 65,536 bytes.
    TooLong,
    /// The text isn't UTF-8.
    NotText,
    /// A byte that begins no token.
    BadCharacter,
    /// A comment without end.
    OpenComment,
    /// A number that is spelled wrong, or one that the type of its global doesn't hold.
    BadLiteral,
    /// A keyword of C17 or a line for the preprocessor that the profile doesn't have.
    Unsupported,
    /// A token that can't stand where it does.
    Unexpected,
    /// Statements or operators nested too deeply.
    TooDeep,
    /// A name that isn't declared where it stands, or a prototype without a definition.
    Undeclared,
    /// A second declaration of a name in one scope.
    Redeclared,
    /// A name used as what it isn't, a `return`, `break` or `continue` that can't stand where it
    /// does, or a prototype that differs from the definition.
    WrongKind,
    /// A call with another number of arguments than the function has parameters.
    WrongArity,
    /// There is no `main`.
    NoMain,
    /// More functions, parameters, globals, mutexes, slots or nodes than there may be.
    Limit,
    /// Want of memory. It tells nothing of the text.
    Memory,
}

/// Why a text is refused, and where: at 1:1 for want of memory, and for what concerns the text as
/// a whole.
#[derive(Clone, Copy, Debug, PartialEq, Eq)]
pub struct FrontFault {
    pub kind: FrontKind,
    pub place: Place,
}

impl From<Memory> for FrontFault {
    ghost from_gives = { λ _ fault. fault ≡ want_of_memory };

    fn from(_want: Memory) -> FrontFault {
        fault_at(FrontKind::Memory, Place { line: 1, column: 1 })
    }
}

/// A fault of a kind at a place.
pub(crate) fn fault_at(kind: FrontKind, place: Place) -> FrontFault
    ensures { result ≡ fault_at kind place }
{
    FrontFault { kind, place }
}

/// A rule that asks something of a place: a fault there where it is broken.
#[tactic(auto, using(crate::specs::Faults::first))]
pub(crate) fn ask(holds: bool, kind: FrontKind, place: Place) -> Result<(), FrontFault>
    ensures { Passes result (asks holds kind place) }
{
    if holds {
        return Ok(());
    }
    Err(fault_at(kind, place))
}

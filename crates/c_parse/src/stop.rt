//! Where the reading of a part stops.

ghost use Rattle.std.specs.Prelude.{◌≡◌, IfOk, IfErr};
ghost use Rattle.c_parse.specs.declared.stop.Stop.TheVariants.{Memory as WantOfMemory};
ghost use Rattle.c_parse.specs.Grammar.{Next};
ghost use Rattle.c_parse.specs.Machine as machine;
ghost use Rattle.c_parse.specs.Machine.{BreaksEver};

use crate::raw::RawName;
use crate::terminal::{Kind, Terminal};
use gob_tree::{Memory, Place, Text};
use std::alloc::Global;

/// What is wrong with a token: no reading holds it, or it is the first over a limit.
#[derive(Clone, Copy, Debug, PartialEq, Eq)]
pub(crate) enum Trouble {
    Bad,
    Deep,
}

/// Why no part was read: a token, told by the number of tokens from it on, or want of memory.
#[derive(Clone, Copy, Debug, PartialEq, Eq)]
pub(crate) enum Stop {
    At(Trouble, usize),
    Memory,
}

impl From<Memory> for Stop {
    ghost from_gives = { λ _ e. e ≡ WantOfMemory };

    fn from(_want: Memory) -> Stop {
        Stop::Memory
    }
}

/// A token that stands within a production.
#[derive(Clone, Copy, Debug, PartialEq, Eq)]
pub(crate) enum Sign {
    OpenParen,
    CloseParen,
    Comma,
    Semicolon,
    Ampersand,
    Equals,
    Star,
    Void,
    While,
    Null,
    Initializer,
}

/// The name at a place.
pub(crate) fn name_of(alloc: Global, text: &Text, place: Place) -> Result<RawName, Stop>
    ensures name { IfOk result (λ name. name ≡ record { text = text.now; place = place }) }
    ensures memory { IfErr result (λ s. s ≡ machine.want) }
{
    let text = text.copy(alloc)?;
    Ok(RawName { text, place })
}

fn is_sign(sign: Sign, kind: &Kind) -> bool
    ensures { result ≡ machine.is_sign sign kind.now }
{
    match sign {
        Sign::OpenParen => matches!(kind, Kind::OpenParen),
        Sign::CloseParen => matches!(kind, Kind::CloseParen),
        Sign::Comma => matches!(kind, Kind::Comma),
        Sign::Semicolon => matches!(kind, Kind::Semicolon),
        Sign::Ampersand => matches!(kind, Kind::Ampersand),
        Sign::Equals => matches!(kind, Kind::Equals),
        Sign::Star => matches!(kind, Kind::Star),
        Sign::Void => matches!(kind, Kind::Void),
        Sign::While => matches!(kind, Kind::While),
        Sign::Null => matches!(kind, Kind::Null),
        Sign::Initializer => matches!(kind, Kind::Initializer),
    }
}

/// What follows the token, which the tokens begin with.
#[tactic(auto, using(crate::proofs::Descent::sign_is, crate::proofs::Descent::no_sign, crate::proofs::Descent::no_sign_at_end))]
pub(crate) fn past(sign: Sign, tokens: &[Terminal]) -> Result<&[Terminal], Stop>
    ensures found { IfOk result (λ rest. Next (machine.kind_of sign) tokens.now rest.now) }
    ensures stop { IfErr result (BreaksEver (machine.Part.sign sign) tokens.now) }
{
    let Some((token, rest)) = tokens.split_first() else {
        return Err(Stop::At(Trouble::Bad, 0));
    };
    if is_sign(sign, &token.kind) {
        return Ok(rest);
    }
    Err(Stop::At(Trouble::Bad, tokens.len()))
}

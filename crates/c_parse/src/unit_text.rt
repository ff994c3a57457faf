//! The units of texts.

ghost use Rattle.std.specs.Prelude.{IfOk, IfErr};
ghost use Rattle.c_lex.specs.Places.{place_after};
ghost use Rattle.c_lex.specs.Tokens.{AreTokens};
ghost use Rattle.c_parse.specs.Fault.{IsFault};
ghost use Rattle.c_parse.specs.Grammar.{IsUnit};
ghost use Rattle.c_parse.specs.Terminals.{terminals_of};

use crate::fault::ParseFault;
use crate::fault_of::fault_of;
use crate::raw::RawUnit;
use crate::stop::Stop;
use crate::terminals::terminals_of;
use crate::unit::unit;
use c_lex::{Token, end_place, one_cut};
use std::alloc::Global;

/// The translation unit (C17, 6.9) that the tokens of a text spell, with names as written.
///
/// # Errors
///
/// `Unexpected` and `Unsupported` at the first token that no unit has after the tokens before it, or
/// at the end of the text where a unit would have to go on; `Unsupported` where that token is a
/// keyword of C17 (6.4.1) that the grammar doesn't write. `TooDeep` at the first token over a limit:
/// a declaration or statement within 64 others, or the 65th operator of an expression. `Memory` for
/// want of memory.
pub fn parse(alloc: Global, text: &[u8], tokens: &[Token]) -> Result<RawUnit, ParseFault>
    requires { AreTokens text.now tokens.now }
    ensures found { IfOk result (λ unit. IsUnit (terminals_of text.now tokens.now) unit.items) }
    ensures fault { IfErr result (IsFault (terminals_of text.now tokens.now) (place_after text.now)) }
{
    one_cut();
    let terminals = terminals_of(alloc, text, tokens)?;
    let all = terminals.as_slice();
    match unit(alloc, all) {
        Ok(items) => Ok(RawUnit { items }),
        Err(Stop::At(trouble, left)) => Err(fault_of(trouble, left, all, end_place(text))),
        Err(Stop::Memory) => Err(ParseFault::Memory),
    }
}

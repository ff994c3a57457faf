//! From a text to its source, phase by phase.

ghost use Rattle.std.specs.Prelude.{◌≡◌, IfOk, IfErr};
ghost use Rattle.gob_tree.specs.Formed.{IsFormed};
ghost use Rattle.gob_tree.specs.WellMade.{IsWellMade};
ghost use Rattle.c_lex.specs.Tokens.{AreTokens};
ghost use Rattle.c_parse.specs.Grammar.{IsUnit};
ghost use Rattle.c_parse.specs.Terminals.{terminals_of};
ghost use Rattle.c_check.specs.Front.{lex_fault, parse_fault, Reads, IsSourceOf, IsFirstOf};

use crate::fault::{FrontFault, FrontKind, fault_at};
use crate::graphs::{graphs_of, program_with, want_of_memory};
use crate::law::accepted_is_well_made;
use crate::resolve;
use c_lex::{LexFault, Token, lex};
use c_parse::{ParseFault, RawUnit, parse};
use c_source::Source;
use gob_tree::{Place, Text};
use std::alloc::Global;

/// The fault of a text without tokens.
fn lex_fault(fault: LexFault) -> FrontFault
    ensures { result ≡ lex_fault fault }
{
    match fault {
        LexFault::TooLong => fault_at(FrontKind::TooLong, Place { line: 1, column: 1 }),
        LexFault::NotText(place) => fault_at(FrontKind::NotText, place),
        LexFault::BadCharacter(place) => fault_at(FrontKind::BadCharacter, place),
        LexFault::OpenComment(place) => fault_at(FrontKind::OpenComment, place),
        LexFault::BadLiteral(place) => fault_at(FrontKind::BadLiteral, place),
        LexFault::Unsupported(place) => fault_at(FrontKind::Unsupported, place),
        LexFault::Memory => want_of_memory(),
    }
}

/// The fault of tokens that are no unit.
fn parse_fault(fault: ParseFault) -> FrontFault
    ensures { result ≡ parse_fault fault }
{
    match fault {
        ParseFault::Unexpected(place) => fault_at(FrontKind::Unexpected, place),
        ParseFault::Unsupported(place) => fault_at(FrontKind::Unsupported, place),
        ParseFault::TooDeep(place) => fault_at(FrontKind::TooDeep, place),
        ParseFault::Memory => want_of_memory(),
    }
}

/// The tokens of a text.
#[tactic(auto, using(crate::specs::Front::in_tokens))]
fn tokens_of(alloc: Global, text: &[u8]) -> Result<Vec<Token>, FrontFault>
    ensures cut { IfOk result (λ tokens. AreTokens text.now tokens.items) }
    ensures fault { IfErr result (IsFirstOf text.now) }
{
    match lex(alloc, text) {
        Ok(tokens) => Ok(tokens),
        Err(fault) => Err(lex_fault(fault)),
    }
}

/// The tree that tokens spell.
#[tactic(auto, using(crate::specs::Front::in_grammar))]
fn tree_of(alloc: Global, text: &[u8], tokens: &[Token]) -> Result<RawUnit, FrontFault>
    requires { AreTokens text.now tokens.now }
    ensures spelled { IfOk result (λ raw. IsUnit (terminals_of text.now tokens.now) raw.items) }
    ensures fault { IfErr result (IsFirstOf text.now) }
{
    match parse(alloc, text, tokens) {
        Ok(raw) => Ok(raw),
        Err(fault) => Err(parse_fault(fault)),
    }
}

/// The source of a tree that was read from a text. The tree goes before the graphs come.
fn source_of(alloc: Global, text: &[u8], raw: RawUnit) -> Result<Source, FrontFault>
    requires read { Reads text.now raw }
    ensures accepted { IfOk result (IsSourceOf text.now) }
    ensures refused { IfErr result (IsFirstOf text.now) }
    ensures made { IfOk result (λ source. IsWellMade source.unit) }
    ensures formed { IfOk result (λ source. IsFormed source.program) }
{
    accepted_is_well_made();
    let unit = resolve(alloc, &raw)?;
    drop(raw);
    let graphs = graphs_of(alloc, unit.funcs.as_slice())?;
    let program = program_with(alloc, &unit, graphs)?;
    let text = Text::of(alloc, text)?;
    Ok(Source::of(text, unit, program))
}

/// A text (C17, 5.1.1.2 and 6) with its unit and that unit's program: names are resolved to numbers,
/// types are widths, and each function has its graph. The unit is well made, and the program is one
/// that an analysis takes.
///
/// # Errors
///
/// The first fault, by phases: of the bytes and tokens; of the grammar; of names, kinds and
/// literals, in the order of the text; a missing `main`; and of the limits (128 functions, 8
/// parameters of each, 64 globals, 8 mutexes, and function by function 128 slots and 4,096 nodes of
/// all graphs). `Memory` for want of memory, which tells nothing of the text.
pub fn front(alloc: Global, text: &[u8]) -> Result<Source, FrontFault>
    ensures accepted { IfOk result (IsSourceOf text.now) }
    ensures refused { IfErr result (IsFirstOf text.now) }
    ensures made { IfOk result (λ source. IsWellMade source.unit) }
    ensures formed { IfOk result (λ source. IsFormed source.program) }
{
    let tokens = tokens_of(alloc, text)?;
    let raw = tree_of(alloc, text, tokens.as_slice())?;
    source_of(alloc, text, raw)
}

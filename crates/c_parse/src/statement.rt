//! Statements, by descent. A statement of depth 65 is over the limit.

ghost use Rattle.std.specs.Prelude.{◌≡◌, ◌≤◌, [], ◌∷◌, IfOk, IfErr, OnOk};
ghost use Rattle.c_parse.specs.Descent.{BareAfter, ReadsEnded, if_row, while_row, do_row, for_row};
ghost use Rattle.c_parse.specs.Grammar as grammar;
ghost use Rattle.c_parse.specs.Grammar.{within, entered, ReadsBare, ReadsStmt, ReadsElse, ReadsItems};
ghost use Rattle.c_parse.specs.Machine as machine;
ghost use Rattle.c_parse.specs.Machine.{Breaks, BreaksIn, IsOver};
ghost use Rattle.c_parse.specs.declared.stop.Sign.TheVariants as signs;
ghost use Rattle.c_parse.specs.declared.terminal.Kind.TheVariants as kinds;

use crate::clause::{do_end, first, last, test, value};
use crate::declaration::decl;
use crate::expression::LIMIT;
use crate::raw::{RawPlaced, RawStmt};
use crate::simple::{condition, simple};
use crate::stop::{Sign, Stop, Trouble, past};
use crate::terminal::{Kind, Terminal};
use gob_tree::{Boxed, Place, Seq};
use std::alloc::Global;

fn is_close_brace(kind: &Kind) -> bool
    ensures { result ≡ machine.is_close_brace kind.now }
{
    matches!(kind, Kind::CloseBrace)
}

fn opens_decl(kind: &Kind) -> bool
    ensures { result ≡ machine.opens_decl kind.now }
{
    matches!(kind, Kind::Int | Kind::Long | Kind::Thread)
}

fn opens_stmt(kind: &Kind) -> bool
    ensures { result ≡ machine.opens_stmt kind.now }
{
    matches!(
        kind,
        Kind::Name(_)
            | Kind::Step(_)
            | Kind::Assert
            | Kind::Create
            | Kind::Join
            | Kind::Lock
            | Kind::Unlock
            | Kind::Semicolon
            | Kind::OpenBrace
            | Kind::If
            | Kind::While
            | Kind::Do
            | Kind::For
            | Kind::Break
            | Kind::Continue
            | Kind::Return
    )
}

/// A declaration or statement of a depth begins with the tokens.
fn enter(depth: u8, tokens: &[Terminal]) -> Result<(), Stop>
    requires { depth ≤ 65 }
    ensures entered { OnOk result (entered depth (within 0) tokens.now ≡ within 0) }
    ensures limit { OnOk result (depth ≤ 64) }
    ensures over { IfErr result (IsOver (entered depth (within 0) tokens.now)) }
{
    if depth <= LIMIT {
        return Ok(());
    }
    Err(Stop::At(Trouble::Deep, tokens.len()))
}

/// `simple ";"`
#[tactic(auto, using(crate::proofs::StatementExits::ended_found, crate::proofs::StatementExits::ended_0_stop, crate::proofs::StatementExits::ended_1_stop))]
fn ended(alloc: Global, tokens: &[Terminal]) -> Result<(RawStmt, &[Terminal]), Stop>
    ensures found { IfOk result (λ read. ReadsEnded tokens.now read.0 read.1.now) }
    ensures stop { IfErr result (BreaksIn (machine.simple ∷ machine.sign signs.Semicolon ∷ []) (within 0) tokens.now) }
{
    let (stmt, rest) = simple(alloc, tokens)?;
    let rest = past(Sign::Semicolon, rest)?;
    Ok((stmt, rest))
}

/// What follows `if`: `"(" expr ")" stmt [ "else" stmt ]`.
#[cycle(statement)]
#[tactic(auto, using(crate::proofs::StatementExits::if_found, crate::proofs::StatementExits::if_0_stop, crate::proofs::StatementExits::if_1_stop, crate::proofs::StatementExits::if_2_stop, crate::proofs::Shorter::shorter_condition, crate::proofs::Shorter::shorter_stmt))]
fn if_else(alloc: Global, depth: u8, tokens: &[Terminal]) -> Result<(RawStmt, &[Terminal]), Stop>
    requires { depth ≤ 64 }
    ensures found { IfOk result (λ read. BareAfter depth kinds.If tokens.now read.0 read.1.now) }
    ensures stop { IfErr result (BreaksIn (if_row depth) (within 0) tokens.now) }
{
    let (test, rest) = condition(alloc, tokens)?;
    let (branch, rest) = stmt(alloc, depth + 1, rest)?;
    let (other, rest) = otherwise(alloc, depth + 1, rest)?;
    let branch = Boxed::new(alloc, branch)?;
    Ok((RawStmt::If(test, branch, other), rest))
}

/// What follows `while`: `"(" expr ")" stmt`.
#[cycle(statement)]
#[tactic(auto, using(crate::proofs::StatementExits::while_found, crate::proofs::StatementExits::while_0_stop, crate::proofs::StatementExits::while_1_stop, crate::proofs::Shorter::shorter_condition))]
fn while_loop(alloc: Global, depth: u8, tokens: &[Terminal]) -> Result<(RawStmt, &[Terminal]), Stop>
    requires { depth ≤ 64 }
    ensures found { IfOk result (λ read. BareAfter depth kinds.While tokens.now read.0 read.1.now) }
    ensures stop { IfErr result (BreaksIn (while_row depth) (within 0) tokens.now) }
{
    let (test, rest) = condition(alloc, tokens)?;
    let (body, rest) = stmt(alloc, depth + 1, rest)?;
    let body = Boxed::new(alloc, body)?;
    Ok((RawStmt::While(test, body), rest))
}

/// What follows `do`: `stmt "while" "(" expr ")" ";"`.
#[cycle(statement)]
#[tactic(auto, using(crate::proofs::StatementExits::do_found, crate::proofs::StatementExits::do_0_stop, crate::proofs::StatementExits::do_1_stop))]
fn do_loop(alloc: Global, depth: u8, tokens: &[Terminal]) -> Result<(RawStmt, &[Terminal]), Stop>
    requires { depth ≤ 64 }
    ensures found { IfOk result (λ read. BareAfter depth kinds.Do tokens.now read.0 read.1.now) }
    ensures stop { IfErr result (BreaksIn (do_row depth) (within 0) tokens.now) }
{
    let (body, rest) = stmt(alloc, depth + 1, tokens)?;
    let (test, rest) = do_end(alloc, rest)?;
    let body = Boxed::new(alloc, body)?;
    Ok((RawStmt::DoWhile(body, test), rest))
}

/// What follows `for`: `"(" first test last stmt`.
#[cycle(statement)]
#[tactic(auto, using(crate::proofs::StatementExits::for_found, crate::proofs::StatementExits::for_0_stop, crate::proofs::StatementExits::for_1_stop, crate::proofs::StatementExits::for_2_stop, crate::proofs::StatementExits::for_3_stop, crate::proofs::StatementExits::for_4_stop, crate::proofs::Descent::shorter_next, crate::proofs::Shorter::shorter_first, crate::proofs::Shorter::shorter_test, crate::proofs::Shorter::shorter_last))]
fn for_loop(alloc: Global, depth: u8, tokens: &[Terminal]) -> Result<(RawStmt, &[Terminal]), Stop>
    requires { depth ≤ 64 }
    ensures found { IfOk result (λ read. BareAfter depth kinds.For tokens.now read.0 read.1.now) }
    ensures stop { IfErr result (BreaksIn (for_row depth) (within 0) tokens.now) }
{
    let rest = past(Sign::OpenParen, tokens)?;
    let (first, rest) = first(alloc, rest)?;
    let (test, rest) = test(alloc, rest)?;
    let (last, rest) = last(alloc, rest)?;
    let (body, rest) = stmt(alloc, depth + 1, rest)?;
    let body = Boxed::new(alloc, body)?;
    Ok((RawStmt::For(first, test, last, body), rest))
}

/// A statement of a depth that is within the limit.
#[cycle(statement)]
#[tactic(auto, using(crate::proofs::StatementExits::empty_found, crate::proofs::StatementExits::block_found, crate::proofs::StatementExits::after_word_found, crate::proofs::StatementExits::break_found, crate::proofs::StatementExits::continue_found, crate::proofs::StatementExits::return_found, crate::proofs::StatementExits::block_stop, crate::proofs::StatementExits::if_stop, crate::proofs::StatementExits::while_stop, crate::proofs::StatementExits::do_stop, crate::proofs::StatementExits::for_stop, crate::proofs::StatementExits::break_stop, crate::proofs::StatementExits::continue_stop, crate::proofs::StatementExits::return_stop))]
fn bare(alloc: Global, depth: u8, tokens: &[Terminal]) -> Result<(RawStmt, &[Terminal]), Stop>
    requires { depth ≤ 64 }
    ensures found { IfOk result (λ read. ReadsBare depth (within 0) tokens.now read.0 read.1.now (within 0)) }
    ensures stop { IfErr result (Breaks (machine.Part.bare depth) (within 0) tokens.now) }
{
    let Some((token, rest)) = tokens.split_first() else {
        return Err(Stop::At(Trouble::Bad, 0));
    };
    match &token.kind {
        Kind::Semicolon => Ok((RawStmt::Empty, rest)),
        Kind::OpenBrace => {
            let (list, _, rest) = items(alloc, depth + 1, rest)?;
            Ok((RawStmt::Block(list), rest))
        }
        Kind::If => if_else(alloc, depth, rest),
        Kind::While => while_loop(alloc, depth, rest),
        Kind::Do => do_loop(alloc, depth, rest),
        Kind::For => for_loop(alloc, depth, rest),
        Kind::Break => {
            let rest = past(Sign::Semicolon, rest)?;
            Ok((RawStmt::Break, rest))
        }
        Kind::Continue => {
            let rest = past(Sign::Semicolon, rest)?;
            Ok((RawStmt::Continue, rest))
        }
        Kind::Return => {
            let (value, rest) = value(alloc, rest)?;
            Ok((RawStmt::Return(value), rest))
        }
        _ => ended(alloc, tokens),
    }
}

/// A statement of a depth, with its place.
#[cycle(statement)]
#[tactic(auto, using(crate::proofs::StatementExits::stmt_mark, crate::proofs::StatementExits::stmt_found, crate::proofs::StatementExits::stmt_stop, crate::proofs::StatementExits::stmt_deep))]
fn stmt(alloc: Global, depth: u8, tokens: &[Terminal]) -> Result<(RawPlaced, &[Terminal]), Stop>
    requires { depth ≤ 65 }
    ensures found { IfOk result (λ read. ReadsStmt depth (within 0) tokens.now read.0 read.1.now (within 0)) }
    ensures stop { IfErr result (Breaks (machine.Part.stmt depth) (within 0) tokens.now) }
{
    let Some((token, _)) = tokens.split_first() else {
        return Err(Stop::At(Trouble::Bad, 0));
    };
    if opens_stmt(&token.kind) {
        enter(depth, tokens)?;
        let (stmt, rest) = bare(alloc, depth, tokens)?;
        let place = token.place;
        return Ok((RawPlaced { place, stmt }, rest));
    }
    Err(Stop::At(Trouble::Bad, tokens.len()))
}

/// `[ "else" stmt ]`
#[cycle(statement)]
#[tactic(auto, using(crate::proofs::StatementExits::else_found, crate::proofs::StatementExits::no_else_at_end, crate::proofs::StatementExits::else_stop))]
fn otherwise(
    alloc: Global,
    depth: u8,
    tokens: &[Terminal],
) -> Result<(Option<Boxed<RawPlaced>>, &[Terminal]), Stop>
    requires { depth ≤ 65 }
    ensures found { IfOk result (λ read. ReadsElse depth (within 0) tokens.now read.0 read.1.now (within 0)) }
    ensures stop { IfErr result (Breaks (machine.Part.otherwise depth) (within 0) tokens.now) }
{
    let Some((token, rest)) = tokens.split_first() else {
        return Ok((None, tokens));
    };
    match &token.kind {
        Kind::Else => {
            let (other, rest) = stmt(alloc, depth, rest)?;
            let other = Boxed::new(alloc, other)?;
            Ok((Some(other), rest))
        }
        _ => Ok((None, tokens)),
    }
}

/// `{ decl | stmt } "}"`, each of a depth; the place is that of the brace.
#[cycle(statement)]
#[tactic(auto, using(crate::proofs::Descent::runs_from, crate::proofs::StatementExits::items_end))]
pub(crate) fn items(
    alloc: Global,
    depth: u8,
    tokens: &[Terminal],
) -> Result<(Seq<RawPlaced>, Place, &[Terminal]), Stop>
    requires { depth ≤ 65 }
    ensures found { IfOk result (λ read. ReadsItems depth (within 0) tokens.now read.0 read.1 read.2.now (within 0)) }
    ensures stop { IfErr result (Breaks (machine.Part.items depth) (within 0) tokens.now) }
{
    let mut list = Seq::new(alloc);
    let mut rest = tokens;
    while let Some((token, after)) = rest.split_first() {
        if is_close_brace(&token.kind) {
            return Ok((list, token.place, after));
        }
        if opens_decl(&token.kind) {
            enter(depth, rest)?;
            let (more, next) = decl(alloc, list, rest)?;
            list = more;
            rest = next;
            continue;
        }
        let (one, next) = stmt(alloc, depth, rest)?;
        list.push(one)?;
        rest = next;
    }
    Err(Stop::At(Trouble::Bad, 0))
}

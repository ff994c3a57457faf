//! Simple statements, by descent. Between whole expressions no operator is counted.

ghost use Rattle.std.specs.Prelude.{◌≡◌, List, [], ◌∷◌, IfOk, IfErr};
ghost use Rattle.c_parse.specs.Descent.{SimpleAfter, create_row, join_row};
ghost use Rattle.c_parse.specs.Grammar as grammar;
ghost use Rattle.c_parse.specs.Grammar.{within, ReadsName, ReadsWhole, ReadsCondition, ReadsHandle, ReadsAfterName, ReadsSimple};
ghost use Rattle.c_parse.specs.Machine as machine;
ghost use Rattle.c_parse.specs.Machine.{Breaks, BreaksIn};
ghost use Rattle.c_parse.specs.declared.raw.stmt.RawStmt.TheVariants as stmts;
ghost use Rattle.c_parse.specs.declared.raw.expr.RawExpr.TheVariants as exprs;
ghost use Rattle.c_parse.specs.declared.stop.Sign.TheVariants as signs;
ghost use Rattle.c_parse.specs.declared.terminal.Kind.TheVariants as kinds;

use crate::expression::{TOP, args, level};
use crate::raw::{RawExpr, RawName, RawStmt};
use crate::stop::{Sign, Stop, Trouble, name_of, past};
use crate::terminal::{Kind, Terminal};
use gob_tree::{BinOp, Boxed, Width};
use std::alloc::Global;

/// The name that the tokens begin with.
#[tactic(auto, using(crate::proofs::Rows::ident_found, crate::proofs::Rows::no_ident_at_end, crate::proofs::Rows::no_ident, crate::proofs::Descent::wanted))]
pub(crate) fn ident(alloc: Global, tokens: &[Terminal]) -> Result<(RawName, &[Terminal]), Stop>
    ensures found { IfOk result (λ read. ReadsName tokens.now read.0 read.1.now) }
    ensures stop { IfErr result (Breaks machine.Part.ident (within 0) tokens.now) }
{
    let Some((token, rest)) = tokens.split_first() else {
        return Err(Stop::At(Trouble::Bad, 0));
    };
    match &token.kind {
        Kind::Name(text) => {
            let name = name_of(alloc, text, token.place)?;
            Ok((name, rest))
        }
        _ => Err(Stop::At(Trouble::Bad, tokens.len())),
    }
}

/// An expression that is no part of another.
#[tactic(auto, using(crate::proofs::SimpleExits::whole_found, crate::proofs::SimpleExits::whole_stop))]
pub(crate) fn whole(alloc: Global, tokens: &[Terminal]) -> Result<(RawExpr, &[Terminal]), Stop>
    ensures found { IfOk result (λ read. ReadsWhole (within 0) tokens.now read.0 read.1.now (within 0)) }
    ensures stop { IfErr result (Breaks machine.Part.whole (within 0) tokens.now) }
{
    let (expr, rest, _) = level(alloc, TOP, 0, tokens)?;
    Ok((expr, rest))
}

/// `"(" expr ")"`
#[tactic(auto, using(crate::specs::Grammar::condition, crate::proofs::SimpleExits::condition_0_stop, crate::proofs::SimpleExits::condition_1_stop, crate::proofs::SimpleExits::condition_2_stop))]
pub(crate) fn condition(alloc: Global, tokens: &[Terminal]) -> Result<(RawExpr, &[Terminal]), Stop>
    ensures found { IfOk result (λ read. ReadsCondition (within 0) tokens.now read.0 read.1.now (within 0)) }
    ensures stop { IfErr result (Breaks machine.Part.condition (within 0) tokens.now) }
{
    let rest = past(Sign::OpenParen, tokens)?;
    let (test, rest) = whole(alloc, rest)?;
    let rest = past(Sign::CloseParen, rest)?;
    Ok((test, rest))
}

/// `"(" "&" name ")"`
#[tactic(auto, using(crate::specs::Grammar::handle, crate::proofs::SimpleExits::handle_0_stop, crate::proofs::SimpleExits::handle_1_stop, crate::proofs::SimpleExits::handle_2_stop, crate::proofs::SimpleExits::handle_3_stop))]
fn handle(alloc: Global, tokens: &[Terminal]) -> Result<(RawName, &[Terminal]), Stop>
    ensures found { IfOk result (λ read. ReadsHandle tokens.now read.0 read.1.now) }
    ensures stop { IfErr result (Breaks machine.Part.handle (within 0) tokens.now) }
{
    let rest = past(Sign::OpenParen, tokens)?;
    let rest = past(Sign::Ampersand, rest)?;
    let (name, rest) = ident(alloc, rest)?;
    let rest = past(Sign::CloseParen, rest)?;
    Ok((name, rest))
}

/// `name = name op 1`
fn stepped(alloc: Global, op: BinOp, name: RawName) -> Result<RawStmt, Stop>
    ensures value { IfOk result (λ s. s ≡ stmts.Assign name (grammar.step_of op name)) }
    ensures memory { IfErr result (λ s. s ≡ machine.want) }
{
    let left = Boxed::new(alloc, RawExpr::Name(name.copy(alloc)?))?;
    let right = Boxed::new(alloc, RawExpr::Number(1, Width::W32))?;
    Ok(RawStmt::Assign(name, RawExpr::Binary(op, left, right)))
}

/// `name = name op value`
fn updated(alloc: Global, op: BinOp, name: RawName, value: RawExpr) -> Result<RawStmt, Stop>
    ensures value { IfOk result (λ s. s ≡ stmts.Assign name (exprs.Binary op (exprs.Name name) value)) }
    ensures memory { IfErr result (λ s. s ≡ machine.want) }
{
    let left = Boxed::new(alloc, RawExpr::Name(name.copy(alloc)?))?;
    let right = Boxed::new(alloc, value)?;
    Ok(RawStmt::Assign(name, RawExpr::Binary(op, left, right)))
}

/// What follows a name in front of a simple statement: `"=" expr | update expr | step | "(" args`.
#[tactic(auto, using(crate::proofs::SimpleExits::assigned_found, crate::proofs::SimpleExits::updated_found, crate::proofs::SimpleExits::stepped_found, crate::proofs::SimpleExits::called_found, crate::proofs::SimpleExits::assigned_stop, crate::proofs::SimpleExits::updated_stop, crate::proofs::SimpleExits::called_stop, crate::proofs::Descent::wanted))]
fn after_name(
    alloc: Global,
    name: RawName,
    tokens: &[Terminal],
) -> Result<(RawStmt, &[Terminal]), Stop>
    ensures found { IfOk result (λ read. ReadsAfterName name (within 0) tokens.now read.0 read.1.now (within 0)) }
    ensures stop { IfErr result (Breaks machine.Part.after_name (within 0) tokens.now) }
{
    let Some((token, rest)) = tokens.split_first() else {
        return Err(Stop::At(Trouble::Bad, 0));
    };
    match &token.kind {
        Kind::Equals => {
            let (value, rest) = whole(alloc, rest)?;
            Ok((RawStmt::Assign(name, value), rest))
        }
        Kind::Update(op) => {
            let (value, rest) = whole(alloc, rest)?;
            let stmt = updated(alloc, *op, name, value)?;
            Ok((stmt, rest))
        }
        Kind::Step(op) => {
            let stmt = stepped(alloc, *op, name)?;
            Ok((stmt, rest))
        }
        Kind::OpenParen => {
            let (list, rest, _) = args(alloc, true, 0, rest)?;
            Ok((RawStmt::CallOnly(name, list), rest))
        }
        _ => Err(Stop::At(Trouble::Bad, tokens.len())),
    }
}

/// What follows `pthread_create`: `"(" "&" name "," "NULL" "," name "," "NULL" ")"`.
#[tactic(auto, using(crate::proofs::SimpleExits::create_found, crate::proofs::SimpleExits::create_0_stop, crate::proofs::SimpleExits::create_1_stop, crate::proofs::SimpleExits::create_2_stop, crate::proofs::SimpleExits::create_3_stop, crate::proofs::SimpleExits::create_4_stop, crate::proofs::SimpleExits::create_5_stop, crate::proofs::SimpleExits::create_6_stop, crate::proofs::SimpleExits::create_7_stop, crate::proofs::SimpleExits::create_8_stop, crate::proofs::SimpleExits::create_9_stop))]
fn create(alloc: Global, tokens: &[Terminal]) -> Result<(RawStmt, &[Terminal]), Stop>
    ensures found { IfOk result (λ read. SimpleAfter kinds.Create tokens.now read.0 read.1.now) }
    ensures stop { IfErr result (BreaksIn create_row (within 0) tokens.now) }
{
    let rest = past(Sign::OpenParen, tokens)?;
    let rest = past(Sign::Ampersand, rest)?;
    let (thread, rest) = ident(alloc, rest)?;
    let rest = past(Sign::Comma, rest)?;
    let rest = past(Sign::Null, rest)?;
    let rest = past(Sign::Comma, rest)?;
    let (function, rest) = ident(alloc, rest)?;
    let rest = past(Sign::Comma, rest)?;
    let rest = past(Sign::Null, rest)?;
    let rest = past(Sign::CloseParen, rest)?;
    Ok((RawStmt::Create(thread, function), rest))
}

/// What follows `pthread_join`: `"(" name "," "NULL" ")"`.
#[tactic(auto, using(crate::proofs::SimpleExits::join_found, crate::proofs::SimpleExits::join_0_stop, crate::proofs::SimpleExits::join_1_stop, crate::proofs::SimpleExits::join_2_stop, crate::proofs::SimpleExits::join_3_stop, crate::proofs::SimpleExits::join_4_stop))]
fn join(alloc: Global, tokens: &[Terminal]) -> Result<(RawStmt, &[Terminal]), Stop>
    ensures found { IfOk result (λ read. SimpleAfter kinds.Join tokens.now read.0 read.1.now) }
    ensures stop { IfErr result (BreaksIn join_row (within 0) tokens.now) }
{
    let rest = past(Sign::OpenParen, tokens)?;
    let (name, rest) = ident(alloc, rest)?;
    let rest = past(Sign::Comma, rest)?;
    let rest = past(Sign::Null, rest)?;
    let rest = past(Sign::CloseParen, rest)?;
    Ok((RawStmt::Join(name), rest))
}

/// A simple statement, without what ends it.
#[tactic(auto, using(crate::proofs::SimpleExits::named_found, crate::proofs::SimpleExits::step_found, crate::proofs::SimpleExits::asserts_found, crate::proofs::SimpleExits::after_found, crate::proofs::SimpleExits::lock_found, crate::proofs::SimpleExits::unlock_found, crate::proofs::SimpleExits::named_stop, crate::proofs::SimpleExits::step_stop, crate::proofs::SimpleExits::asserts_stop, crate::proofs::SimpleExits::create_stop, crate::proofs::SimpleExits::join_stop, crate::proofs::SimpleExits::lock_stop, crate::proofs::SimpleExits::unlock_stop, crate::proofs::Descent::wanted))]
pub(crate) fn simple(alloc: Global, tokens: &[Terminal]) -> Result<(RawStmt, &[Terminal]), Stop>
    ensures found { IfOk result (λ read. ReadsSimple (within 0) tokens.now read.0 read.1.now (within 0)) }
    ensures stop { IfErr result (Breaks machine.Part.simple (within 0) tokens.now) }
{
    let Some((token, rest)) = tokens.split_first() else {
        return Err(Stop::At(Trouble::Bad, 0));
    };
    match &token.kind {
        Kind::Name(text) => {
            let name = name_of(alloc, text, token.place)?;
            after_name(alloc, name, rest)
        }
        Kind::Step(op) => {
            let (name, rest) = ident(alloc, rest)?;
            let stmt = stepped(alloc, *op, name)?;
            Ok((stmt, rest))
        }
        Kind::Assert => {
            let (test, rest) = condition(alloc, rest)?;
            Ok((RawStmt::Assert(test), rest))
        }
        Kind::Create => create(alloc, rest),
        Kind::Join => join(alloc, rest),
        Kind::Lock => {
            let (name, rest) = handle(alloc, rest)?;
            Ok((RawStmt::Lock(name), rest))
        }
        Kind::Unlock => {
            let (name, rest) = handle(alloc, rest)?;
            Ok((RawStmt::Unlock(name), rest))
        }
        _ => Err(Stop::At(Trouble::Bad, tokens.len())),
    }
}

//! Parts of statements, by descent.

ghost use Rattle.std.specs.Prelude.{IfOk, IfErr};
ghost use Rattle.c_parse.specs.Grammar.{within, ReadsValue, ReadsFirst, ReadsTest, ReadsLast, ReadsDoEnd};
ghost use Rattle.c_parse.specs.Machine as machine;
ghost use Rattle.c_parse.specs.Machine.{Breaks};

use crate::declaration::numbers;
use crate::raw::{RawExpr, RawPlaced, RawReturn};
use crate::simple::{condition, simple, whole};
use crate::stop::{Sign, Stop, Trouble, past};
use crate::terminal::{Kind, Terminal};
use gob_tree::{Boxed, Seq};
use std::alloc::Global;

/// What follows `return`: `[ expr | "NULL" ] ";"`.
#[tactic(auto, using(crate::proofs::ClauseExits::plain_found, crate::proofs::ClauseExits::null_found, crate::specs::Grammar::value, crate::proofs::ClauseExits::null_stop, crate::proofs::ClauseExits::value_whole_stop, crate::proofs::ClauseExits::value_end_stop))]
pub(crate) fn value(alloc: Global, tokens: &[Terminal]) -> Result<(RawReturn, &[Terminal]), Stop>
    ensures found { IfOk result (λ read. ReadsValue (within 0) tokens.now read.0 read.1.now (within 0)) }
    ensures stop { IfErr result (Breaks machine.Part.value (within 0) tokens.now) }
{
    let Some((token, rest)) = tokens.split_first() else {
        return Err(Stop::At(Trouble::Bad, 0));
    };
    match &token.kind {
        Kind::Semicolon => Ok((RawReturn::Plain, rest)),
        Kind::Null => {
            let rest = past(Sign::Semicolon, rest)?;
            Ok((RawReturn::Null, rest))
        }
        _ => {
            let (value, rest) = whole(alloc, tokens)?;
            let rest = past(Sign::Semicolon, rest)?;
            Ok((RawReturn::Value(value), rest))
        }
    }
}

/// The first part of a `for`: a declaration that begins with a type, or `[ simple ] ";"`.
#[tactic(auto, using(crate::proofs::ClauseExits::no_first_found, crate::proofs::ClauseExits::number_first_found, crate::proofs::ClauseExits::simple_first_found, crate::proofs::ClauseExits::int_first_stop, crate::proofs::ClauseExits::long_first_stop, crate::proofs::ClauseExits::first_simple_stop, crate::proofs::ClauseExits::first_end_stop))]
pub(crate) fn first(
    alloc: Global,
    tokens: &[Terminal],
) -> Result<(Seq<RawPlaced>, &[Terminal]), Stop>
    ensures found { IfOk result (λ read. ReadsFirst (within 0) tokens.now read.0 read.1.now (within 0)) }
    ensures stop { IfErr result (Breaks machine.Part.first (within 0) tokens.now) }
{
    let Some((token, rest)) = tokens.split_first() else {
        return Err(Stop::At(Trouble::Bad, 0));
    };
    let mut list = Seq::new(alloc);
    match &token.kind {
        Kind::Semicolon => Ok((list, rest)),
        Kind::Int => numbers(alloc, list, tokens),
        Kind::Long => numbers(alloc, list, tokens),
        _ => {
            let (stmt, rest) = simple(alloc, tokens)?;
            let rest = past(Sign::Semicolon, rest)?;
            list.push(RawPlaced {
                place: token.place,
                stmt,
            })?;
            Ok((list, rest))
        }
    }
}

/// The condition of a `for`: `[ expr ] ";"`.
#[tactic(auto, using(crate::proofs::ClauseExits::no_test_found, crate::proofs::ClauseExits::test_found, crate::proofs::ClauseExits::test_whole_stop, crate::proofs::ClauseExits::test_end_stop))]
pub(crate) fn test(
    alloc: Global,
    tokens: &[Terminal],
) -> Result<(Option<RawExpr>, &[Terminal]), Stop>
    ensures found { IfOk result (λ read. ReadsTest (within 0) tokens.now read.0 read.1.now (within 0)) }
    ensures stop { IfErr result (Breaks machine.Part.test (within 0) tokens.now) }
{
    let Some((token, rest)) = tokens.split_first() else {
        return Err(Stop::At(Trouble::Bad, 0));
    };
    match &token.kind {
        Kind::Semicolon => Ok((None, rest)),
        _ => {
            let (value, rest) = whole(alloc, tokens)?;
            let rest = past(Sign::Semicolon, rest)?;
            Ok((Some(value), rest))
        }
    }
}

/// The last part of a `for`: `[ simple ] ")"`.
#[tactic(auto, using(crate::proofs::ClauseExits::no_last_found, crate::proofs::ClauseExits::last_found, crate::proofs::ClauseExits::last_simple_stop, crate::proofs::ClauseExits::last_end_stop))]
pub(crate) fn last(
    alloc: Global,
    tokens: &[Terminal],
) -> Result<(Option<Boxed<RawPlaced>>, &[Terminal]), Stop>
    ensures found { IfOk result (λ read. ReadsLast (within 0) tokens.now read.0 read.1.now (within 0)) }
    ensures stop { IfErr result (Breaks machine.Part.last (within 0) tokens.now) }
{
    let Some((token, rest)) = tokens.split_first() else {
        return Err(Stop::At(Trouble::Bad, 0));
    };
    match &token.kind {
        Kind::CloseParen => Ok((None, rest)),
        _ => {
            let (stmt, rest) = simple(alloc, tokens)?;
            let rest = past(Sign::CloseParen, rest)?;
            let place = token.place;
            let last = Boxed::new(alloc, RawPlaced { place, stmt })?;
            Ok((Some(last), rest))
        }
    }
}

/// What follows the body of a `do`: `"while" "(" expr ")" ";"`.
#[tactic(auto, using(crate::specs::Grammar::do_end, crate::proofs::ClauseExits::do_end_0_stop, crate::proofs::ClauseExits::do_end_1_stop, crate::proofs::ClauseExits::do_end_2_stop))]
pub(crate) fn do_end(alloc: Global, tokens: &[Terminal]) -> Result<(RawExpr, &[Terminal]), Stop>
    ensures found { IfOk result (λ read. ReadsDoEnd (within 0) tokens.now read.0 read.1.now (within 0)) }
    ensures stop { IfErr result (Breaks machine.Part.do_end (within 0) tokens.now) }
{
    let rest = past(Sign::While, tokens)?;
    let (test, rest) = condition(alloc, rest)?;
    let rest = past(Sign::Semicolon, rest)?;
    Ok((test, rest))
}

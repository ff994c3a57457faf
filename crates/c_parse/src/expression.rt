//! Expressions, by descent.

ghost use Rattle.std.specs.Prelude.{◌≡◌, ◌≤◌, ◌<◌, false, IfOk, IfErr};
ghost use Rattle.c_parse.specs.Grammar as grammar;
ghost use Rattle.c_parse.specs.Grammar.{within, EndsChain, ReadsLevel, ReadsChain, ReadsCall, ReadsArgs};
ghost use Rattle.c_parse.specs.Machine as machine;
ghost use Rattle.c_parse.specs.Machine.{Breaks, IsOver, ReadsOnto};

use crate::raw::{RawExpr, RawName};
use crate::stop::{Sign, Stop, Trouble, name_of, past};
use crate::terminal::{Kind, Terminal};
use gob_tree::{BinOp, Boxed, Seq, UnOp};
use std::alloc::Global;

/// The level of a whole expression.
pub(crate) const TOP: u8 = 6;

/// The greatest number of operators in a whole expression, and the greatest depth of a statement.
pub(crate) const LIMIT: u8 = 64;

/// The operators with the one that the tokens begin with.
fn tick(count: u8, tokens: &[Terminal]) -> Result<u8, Stop>
    requires { count ≤ 64 }
    ensures counted { IfOk result (λ next. grammar.counted (within count) tokens.now ≡ within next) }
    ensures limit { IfOk result (λ next. next ≤ 64) }
    ensures over { IfErr result (IsOver (grammar.counted (within count) tokens.now)) }
{
    if count < LIMIT {
        return Ok(count + 1);
    }
    Err(Stop::At(Trouble::Deep, tokens.len()))
}

fn binary(kind: &Kind) -> Option<BinOp>
    ensures { result ≡ grammar.binary kind.now }
{
    match kind {
        Kind::Plus => Some(BinOp::Add),
        Kind::Minus => Some(BinOp::Sub),
        Kind::Star => Some(BinOp::Mul),
        Kind::Operator(op) => Some(*op),
        _ => None,
    }
}

fn level_of(op: BinOp) -> u8
    ensures { result ≡ grammar.level_of op }
{
    match op {
        BinOp::Mul | BinOp::Div | BinOp::Rem => 0,
        BinOp::Add | BinOp::Sub => 1,
        BinOp::Lt | BinOp::Le | BinOp::Gt | BinOp::Ge => 2,
        BinOp::Eq | BinOp::Ne => 3,
        BinOp::And => 4,
        BinOp::Or => 5,
    }
}

fn operator(level: u8, kind: &Kind) -> Option<BinOp>
    ensures { result ≡ grammar.operator level kind.now }
{
    let op = binary(kind)?;
    if level_of(op) == level {
        return Some(op);
    }
    None
}

fn is_open_paren(kind: &Kind) -> bool
    ensures { result ≡ grammar.is_open_paren kind.now }
{
    matches!(kind, Kind::OpenParen)
}

fn is_close_paren(kind: &Kind) -> bool
    ensures { result ≡ machine.is_close_paren kind.now }
{
    matches!(kind, Kind::CloseParen)
}

fn is_comma(kind: &Kind) -> bool
    ensures { result ≡ machine.is_comma kind.now }
{
    matches!(kind, Kind::Comma)
}

/// `number | name call | "-" operand | "+" operand | "!" operand | "(" expr ")"`
#[cycle(expression)]
#[tactic(auto, using(crate::proofs::Descent::number_found, crate::proofs::Descent::name_found, crate::proofs::Descent::minus_found, crate::proofs::Descent::plus_found, crate::proofs::Descent::negation_found, crate::proofs::Descent::group_found, crate::proofs::Descent::name_stop, crate::proofs::Descent::minus_stop, crate::proofs::Descent::plus_stop, crate::proofs::Descent::negation_stop, crate::proofs::Descent::group_stop, crate::proofs::Descent::group_close_stop, crate::proofs::Descent::minus_over, crate::proofs::Descent::plus_over, crate::proofs::Descent::negation_over, crate::proofs::Descent::group_over, crate::proofs::Descent::wanted))]
fn operand(
    alloc: Global,
    count: u8,
    tokens: &[Terminal],
) -> Result<(RawExpr, &[Terminal], u8), Stop>
    requires { count ≤ 64 }
    ensures found { IfOk result (λ read. ReadsLevel 0 (within count) tokens.now read.0 read.1.now (within read.2)) }
    ensures limit { IfOk result (λ read. read.2 ≤ 64) }
    ensures stop { IfErr result (Breaks (machine.Part.level 0) (within count) tokens.now) }
{
    let Some((token, rest)) = tokens.split_first() else {
        return Err(Stop::At(Trouble::Bad, 0));
    };
    match &token.kind {
        Kind::Number(value, width) => Ok((RawExpr::Number(*value, *width), rest, count)),
        Kind::Name(text) => {
            let name = name_of(alloc, text, token.place)?;
            call(alloc, name, count, rest)
        }
        Kind::Minus => {
            let count = tick(count, tokens)?;
            let (inner, rest, count) = operand(alloc, count, rest)?;
            Ok((
                RawExpr::Unary(UnOp::Neg, Boxed::new(alloc, inner)?),
                rest,
                count,
            ))
        }
        Kind::Plus => {
            let count = tick(count, tokens)?;
            operand(alloc, count, rest)
        }
        Kind::Not => {
            let count = tick(count, tokens)?;
            let (inner, rest, count) = operand(alloc, count, rest)?;
            Ok((
                RawExpr::Unary(UnOp::Not, Boxed::new(alloc, inner)?),
                rest,
                count,
            ))
        }
        Kind::OpenParen => {
            let count = tick(count, tokens)?;
            let (inner, rest, count) = level(alloc, TOP, count, rest)?;
            let rest = past(Sign::CloseParen, rest)?;
            Ok((inner, rest, count))
        }
        _ => Err(Stop::At(Trouble::Bad, tokens.len())),
    }
}

/// What follows a name: `[ "(" args ]`.
#[cycle(expression)]
#[tactic(auto, using(crate::proofs::Descent::no_call_found, crate::proofs::Descent::no_call_at_end, crate::proofs::Descent::call_found, crate::proofs::Descent::call_stop, crate::proofs::Descent::call_deep))]
fn call(
    alloc: Global,
    name: RawName,
    count: u8,
    tokens: &[Terminal],
) -> Result<(RawExpr, &[Terminal], u8), Stop>
    requires { count ≤ 64 }
    ensures found { IfOk result (λ read. ReadsCall name (within count) tokens.now read.0 read.1.now (within read.2)) }
    ensures limit { IfOk result (λ read. read.2 ≤ 64) }
    ensures stop { IfErr result (Breaks machine.Part.call (within count) tokens.now) }
{
    let Some((token, rest)) = tokens.split_first() else {
        return Ok((RawExpr::Name(name), tokens, count));
    };
    if is_open_paren(&token.kind) {
        let count = tick(count, tokens)?;
        let (list, rest, count) = args(alloc, false, count, rest)?;
        return Ok((RawExpr::Call(name, list), rest, count));
    }
    Ok((RawExpr::Name(name), tokens, count))
}

/// The operators where an argument has ended, which may be a whole expression.
fn ended(alone: bool, count: u8) -> u8
    requires { count ≤ 64 }
    ensures value { within result ≡ grammar.ended alone (within count) }
    ensures limit { result ≤ 64 }
{
    if alone { 0 } else { count }
}

/// `")" | expr more_args`; `alone` says whether each argument is a whole expression.
#[cycle(expression)]
#[tactic(auto, using(crate::proofs::Descent::no_args_found, crate::proofs::Descent::args_found, crate::proofs::Descent::arg_stop, crate::proofs::Descent::more_args_stop, crate::proofs::Descent::shorter_level))]
pub(crate) fn args(
    alloc: Global,
    alone: bool,
    count: u8,
    tokens: &[Terminal],
) -> Result<(Seq<RawExpr>, &[Terminal], u8), Stop>
    requires { count ≤ 64 }
    ensures found { IfOk result (λ read. ReadsArgs alone (within count) tokens.now read.0 read.1.now (within read.2)) }
    ensures limit { IfOk result (λ read. read.2 ≤ 64) }
    ensures stop { IfErr result (Breaks (machine.Part.args alone) (within count) tokens.now) }
{
    let Some((token, rest)) = tokens.split_first() else {
        return Err(Stop::At(Trouble::Bad, 0));
    };
    let mut list = Seq::new(alloc);
    if is_close_paren(&token.kind) {
        return Ok((list, rest, count));
    }
    let (first, rest, count) = level(alloc, TOP, count, tokens)?;
    list.push(first)?;
    more_args(alloc, alone, list, count, rest)
}

/// `{ "," expr } ")"`, onto the arguments that were read.
#[cycle(expression)]
#[tactic(auto, using(crate::proofs::Descent::runs_from, crate::proofs::Descent::shorter_level, crate::proofs::Descent::more_arg_stop, crate::proofs::Descent::more_mark_stop, crate::proofs::Descent::more_end_stop))]
fn more_args(
    alloc: Global,
    alone: bool,
    front: Seq<RawExpr>,
    operators: u8,
    tokens: &[Terminal],
) -> Result<(Seq<RawExpr>, &[Terminal], u8), Stop>
    requires { operators ≤ 64 }
    ensures found { IfOk result (λ read. ReadsOnto alone front (within operators) tokens.now read.0 read.1.now (within read.2)) }
    ensures limit { IfOk result (λ read. read.2 ≤ 64) }
    ensures stop { IfErr result (Breaks (machine.Part.more_args alone) (within operators) tokens.now) }
{
    let mut list = front;
    let mut rest = tokens;
    let mut count = operators;
    while let Some((token, after)) = rest.split_first() {
        let begun = ended(alone, count);
        if is_close_paren(&token.kind) {
            return Ok((list, after, begun));
        }
        if is_comma(&token.kind) {
            let (arg, next, used) = level(alloc, TOP, begun, after)?;
            list.push(arg)?;
            rest = next;
            count = used;
        } else {
            return Err(Stop::At(Trouble::Bad, rest.len()));
        }
    }
    Err(Stop::At(Trouble::Bad, 0))
}

/// Whether the tokens begin with an operator of the level.
fn goes_on(level: u8, tokens: &[Terminal]) -> bool
    ensures { result ≡ false → EndsChain level tokens.now }
{
    let Some((token, _)) = tokens.split_first() else {
        return false;
    };
    match operator(level, &token.kind) {
        Some(_) => true,
        None => false,
    }
}

/// An operand, and then the chains of the levels below this one, from the tightest on.
#[cycle(expression)]
#[tactic(auto, using(crate::proofs::Levels::operand_stop, crate::proofs::Levels::chain_in_level_stop, crate::proofs::Levels::next_level, crate::proofs::Levels::level_ends, crate::proofs::Descent::shorter_level))]
pub(crate) fn level(
    alloc: Global,
    level: u8,
    count: u8,
    tokens: &[Terminal],
) -> Result<(RawExpr, &[Terminal], u8), Stop>
    requires level { level ≤ 6 }
    requires count { count ≤ 64 }
    ensures found { IfOk result (λ read. ReadsLevel level (within count) tokens.now read.0 read.1.now (within read.2)) }
    ensures limit { IfOk result (λ read. read.2 ≤ 64) }
    ensures stop { IfErr result (Breaks (machine.Part.level level) (within count) tokens.now) }
{
    let (first, after, begun) = operand(alloc, count, tokens)?;
    let mut left = first;
    let mut rest = after;
    let mut operators = begun;
    for below in 0..level {
        if goes_on(below, rest) {
            let (whole, next, used) = chain(alloc, below, left, operators, rest)?;
            left = whole;
            rest = next;
            operators = used;
        }
    }
    Ok((left, rest, operators))
}

/// What follows the first operand of a chain.
#[cycle(expression)]
#[tactic(auto, using(crate::proofs::Descent::runs_from, crate::proofs::Descent::ends_found, crate::proofs::Descent::all_found, crate::proofs::Descent::chain_right_stop, crate::proofs::Descent::chain_over_stop, crate::proofs::Descent::shorter_level))]
fn chain(
    alloc: Global,
    level: u8,
    first: RawExpr,
    operators: u8,
    tokens: &[Terminal],
) -> Result<(RawExpr, &[Terminal], u8), Stop>
    requires level { level < 6 }
    requires count { operators ≤ 64 }
    ensures found { IfOk result (λ read. ReadsChain level first (within operators) tokens.now read.0 read.1.now (within read.2)) }
    ensures limit { IfOk result (λ read. read.2 ≤ 64) }
    ensures stop { IfErr result (Breaks (machine.Part.chain level) (within operators) tokens.now) }
{
    let mut left = first;
    let mut rest = tokens;
    let mut count = operators;
    while let Some((token, after)) = rest.split_first() {
        let Some(op) = operator(level, &token.kind) else {
            return Ok((left, rest, count));
        };
        let begun = tick(count, rest)?;
        let (right, next, used) = self::level(alloc, level, begun, after)?;
        left = RawExpr::Binary(op, Boxed::new(alloc, left)?, Boxed::new(alloc, right)?);
        rest = next;
        count = used;
    }
    Ok((left, rest, count))
}

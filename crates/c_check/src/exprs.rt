//! Expressions, with numbers for names.

ghost use Rattle.std.specs.Prelude.{◌≡◌, ◌++◌, Some, map, length};
ghost use Rattle.c_check.specs.Rules.{value_call_faults};
ghost use Rattle.c_check.specs.Faults.{Checks, IsFirst};
ghost use Rattle.c_check.specs.Names.{meaning};
ghost use Rattle.c_check.specs.Bodies.{expr_faults, expr_of, args_faults, optional_faults, optional_of, call_of};

use crate::fault::FrontFault;
use crate::meaning::Meaning;
use crate::rules::{called_for_value, variable};
use crate::scope::{BodyScope, FileScope};
use c_parse::{RawExpr, RawName};
use gob_tree::{Boxed, Expr, Seq, Width};
use std::alloc::Global;

/// A call of a function, or the arbitrary number that its name stands for.
fn call_of(meaning: Meaning, args: Seq<Expr>) -> Expr
    ensures { result ≡ call_of (Some meaning) args }
{
    match meaning {
        Meaning::Function(function) => Expr::Call(function.number, function.width, args),
        Meaning::Arbitrary(width) => Expr::Nondet(width),
        _ => Expr::Number(0, Width::W32),
    }
}

/// An expression of a body.
#[tactic(auto, using(crate::proofs::Firsts::first_left, crate::proofs::Firsts::first_right, crate::proofs::Firsts::none_of, crate::proofs::Firsts::want_is_first))]
#[cycle(expr)]
pub(crate) fn expr(
    alloc: Global,
    file: &FileScope,
    body: &BodyScope,
    raw: &RawExpr,
) -> Result<Expr, FrontFault>
    ensures { Checks result (expr_faults file.now body.now raw.now) (expr_of file.now body.now raw.now) }
{
    match raw {
        RawExpr::Number(n, w) => Ok(Expr::Number(*n, *w)),
        RawExpr::Name(name) => variable(file, body, name),
        RawExpr::Unary(op, a) => {
            let a = expr(alloc, file, body, a.get())?;
            Ok(Expr::Unary(*op, Boxed::new(alloc, a)?))
        }
        RawExpr::Binary(op, a, b) => {
            let a = expr(alloc, file, body, a.get())?;
            let b = expr(alloc, file, body, b.get())?;
            let a = Boxed::new(alloc, a)?;
            let b = Boxed::new(alloc, b)?;
            Ok(Expr::Binary(*op, a, b))
        }
        RawExpr::Call(name, args) => call(alloc, file, body, name, args.as_slice()),
    }
}

/// A call: its name, then its arguments.
#[tactic(auto, using(crate::proofs::Firsts::first_left, crate::proofs::Firsts::first_right, crate::proofs::Firsts::none_of, crate::proofs::Firsts::want_is_first))]
#[cycle(expr)]
fn call(
    alloc: Global,
    file: &FileScope,
    body: &BodyScope,
    name: &RawName,
    args: &[RawExpr],
) -> Result<Expr, FrontFault>
    ensures { Checks result (value_call_faults file.now body.now name.now (length args.now) ++ args_faults file.now body.now args.now) (call_of (meaning file.now body.now name.now.text) (map (expr_of file.now body.now) args.now)) }
{
    let meaning = called_for_value(file, body, name, args.len())?;
    let args = exprs(alloc, file, body, args)?;
    Ok(call_of(meaning, args))
}

/// The arguments of a call.
#[tactic(auto, using(crate::proofs::Firsts::first_left, crate::proofs::Firsts::first_right, crate::proofs::Firsts::none_of, crate::proofs::Firsts::want_is_first))]
#[cycle(expr)]
pub(crate) fn exprs(
    alloc: Global,
    file: &FileScope,
    body: &BodyScope,
    raw: &[RawExpr],
) -> Result<Seq<Expr>, FrontFault>
    ensures { Checks result (args_faults file.now body.now raw.now) (map (expr_of file.now body.now) raw.now) }
{
    let mut list = Seq::new(alloc);
    for one in raw {
        let item = expr(alloc, file, body, one)?;
        list.push(item)?;
    }
    Ok(list)
}

/// An expression that may be missing.
#[tactic(auto, using(crate::proofs::Firsts::want_is_first))]
pub(crate) fn optional_expr(
    alloc: Global,
    file: &FileScope,
    body: &BodyScope,
    raw: &Option<RawExpr>,
) -> Result<Option<Expr>, FrontFault>
    ensures { Checks result (optional_faults file.now body.now raw.now) (optional_of file.now body.now raw.now) }
{
    match raw {
        None => Ok(None),
        Some(raw) => {
            let found = expr(alloc, file, body, raw)?;
            Ok(Some(found))
        }
    }
}

ghost use Rattle.std.specs.Prelude.{◌≡◌, [], ◌∷◌, IfOk, MatchOption, Ok};
ghost use Rattle.c_meaning.specs.Demand.{demands_of};
ghost use Rattle.c_meaning.specs.Tree.{exprs_of, layer_of, stmt_exprs, test_exprs, last_exprs};
ghost use Rattle.tree_run.specs.Framing.{expr_list};
ghost use Rattle.tree_run.specs.Stack.{next_todo};

use crate::demand::{Found, FoundAll, evaluate, evaluate_all};
use crate::todo::Next;
use c_meaning::Demand;
use gob_tree::{Expr, Memory, Placed, Seq, Slot, Stmt};
use std::alloc::Global;

/// The expressions of what comes next: none, one, a list, or the 1 that a missing condition is.
#[derive(Clone, Copy)]
pub(crate) enum Exprs<'u> {
    Nothing,
    One(&'u Expr),
    All(&'u [Expr]),
    Holds,
}

/// The expression that may stand there.
fn optional<'u>(e: &'u Option<Expr>) -> Exprs<'u>
    ensures { MatchOption e.now (expr_list result ≡ []) (λ x. expr_list result ≡ x ∷ []) }
{
    match e {
        None => Exprs::Nothing,
        Some(e) => Exprs::One(e),
    }
}

/// The expressions of a statement.
fn of_stmt<'u>(p: &'u Placed) -> Exprs<'u>
    ensures { expr_list result ≡ stmt_exprs (layer_of p.now) }
{
    match &p.stmt {
        Stmt::Declare(_, e) => optional(e),
        Stmt::Assign(_, e) => Exprs::One(e),
        Stmt::CallOnly(_, args) => Exprs::All(args.as_slice()),
        Stmt::If(e, _, _) => Exprs::One(e),
        Stmt::While(e, _) => Exprs::One(e),
        Stmt::Return(e) => optional(e),
        Stmt::Assert(e) => Exprs::One(e),
        Stmt::DeclareThread(_)
        | Stmt::DoWhile(_, _)
        | Stmt::For(_, _, _, _)
        | Stmt::Block(_)
        | Stmt::Break
        | Stmt::Continue
        | Stmt::Create(_, _)
        | Stmt::Join(_)
        | Stmt::Lock(_)
        | Stmt::Unlock(_)
        | Stmt::Empty => Exprs::Nothing,
    }
}

/// The condition of a loop.
fn of_test<'u>(p: &'u Placed) -> Exprs<'u>
    ensures { expr_list result ≡ test_exprs (layer_of p.now) }
{
    match &p.stmt {
        Stmt::While(e, _) => Exprs::One(e),
        Stmt::DoWhile(_, e) => Exprs::One(e),
        Stmt::For(_, Some(e), _, _) => Exprs::One(e),
        Stmt::For(_, None, _, _) => Exprs::Holds,
        Stmt::Declare(_, _)
        | Stmt::DeclareThread(_)
        | Stmt::Assign(_, _)
        | Stmt::CallOnly(_, _)
        | Stmt::If(_, _, _)
        | Stmt::Block(_)
        | Stmt::Break
        | Stmt::Continue
        | Stmt::Return(_)
        | Stmt::Create(_, _)
        | Stmt::Join(_)
        | Stmt::Lock(_)
        | Stmt::Unlock(_)
        | Stmt::Assert(_)
        | Stmt::Empty => Exprs::Nothing,
    }
}

/// The expressions of the last part of a `for`.
fn of_last<'u>(p: &'u Placed) -> Exprs<'u>
    ensures { expr_list result ≡ last_exprs (layer_of p.now) }
{
    match &p.stmt {
        Stmt::For(_, _, Some(last), _) => of_stmt(last.get()),
        _ => Exprs::Nothing,
    }
}

/// The expressions of what comes next.
pub(crate) fn exprs_of<'u>(next: Next<'u>) -> Exprs<'u>
    ensures { expr_list result ≡ exprs_of (next_todo next.entry) }
{
    match next {
        Next::Stmt(p) => of_stmt(p),
        Next::Test(l) => of_test(l),
        Next::Last(l) => of_last(l),
    }
}

/// The values of the expressions, or the first thing that stands in their way.
pub(crate) fn values_of(
    alloc: Global,
    exprs: Exprs<'_>,
    slots: &[Slot],
    values: &[i64],
    ins: &[i64],
) -> Result<Result<Seq<i64>, Demand>, Memory>
    ensures { IfOk result (λ r. r ≡ (demands_of (expr_list exprs.entry) slots.now values.now ins.now).0) }
{
    match exprs {
        Exprs::Nothing => Ok(Ok(Seq::new(alloc))),
        Exprs::Holds => only(alloc, 1),
        Exprs::One(e) => {
            let Found { value, rest: _ } = evaluate(alloc, e, slots, values, ins)?;
            match value {
                Err(demand) => Ok(Err(demand)),
                Ok(v) => only(alloc, v.number),
            }
        }
        Exprs::All(es) => {
            let FoundAll { values, rest: _ } = evaluate_all(alloc, es, slots, values, ins)?;
            Ok(values)
        }
    }
}

/// A list of one number.
fn only(alloc: Global, number: i64) -> Result<Result<Seq<i64>, Demand>, Memory>
    ensures { IfOk result (λ r. r ≡ Ok (number ∷ [])) }
{
    let mut list = Seq::new(alloc);
    list.push(number)?;
    Ok(Ok(list))
}

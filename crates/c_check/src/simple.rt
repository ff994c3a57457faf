//! Statements without statements in them, with numbers for names.

ghost use Rattle.std.specs.Prelude.{◌≡◌, ◌++◌, true, map, length};
ghost use Rattle.gob_tree.specs.declared.stmt.Stmt.TheVariants as becomes;
ghost use Rattle.c_check.specs.Faults.{Checks, Reads};
ghost use Rattle.c_check.specs.Names.{meaning, with_local, with_thread};
ghost use Rattle.c_check.specs.Rules.{number_faults, thread_faults, started_faults, plain_call_faults, local_faults, return_faults};
ghost use Rattle.c_check.specs.Bodies.{expr_faults, expr_of, args_faults, optional_faults, optional_of, target_of, thread_number, function_number, return_value, reading_at, is_simple};

use crate::exprs::{expr, exprs, optional_expr};
use crate::fault::FrontFault;
use crate::rules::{
    called_alone, check_jump, check_local, check_return, mutex, started, target, thread_variable,
};
use crate::scope::{BodyScope, FileScope};
use c_parse::{RawExpr, RawName, RawReturn, RawStmt};
use gob_tree::{Place, Stmt, Width};
use std::alloc::Global;

/// A declaration of a number, whose initial value sees the name.
#[tactic(auto, using(crate::proofs::Firsts::first_left, crate::proofs::Firsts::first_right, crate::proofs::Firsts::none_of, crate::proofs::Firsts::want_is_first))]
fn declare(
    alloc: Global,
    file: &FileScope,
    body: &mut BodyScope,
    width: Width,
    name: &RawName,
    initial: &Option<RawExpr>,
) -> Result<Stmt, FrontFault>
    ensures { let seen = with_local name.now.text width body.old in Reads result (local_faults body.old name.now ++ optional_faults file.now seen initial.now) (becomes.Declare (length body.old.slots) (optional_of file.now seen initial.now)) body.new seen }
{
    check_local(body, name)?;
    let slot = body.add_local(alloc, &name.text, width)?;
    let initial = optional_expr(alloc, file, body, initial)?;
    Ok(Stmt::Declare(slot, initial))
}

/// A declaration of a thread variable.
#[tactic(auto, using(crate::proofs::Firsts::want_is_first))]
fn declare_thread(alloc: Global, body: &mut BodyScope, name: &RawName) -> Result<Stmt, FrontFault>
    ensures { Reads result (local_faults body.old name.now) (becomes.DeclareThread (length body.old.threads)) body.new (with_thread name.now.text body.old) }
{
    check_local(body, name)?;
    let thread = body.add_thread(alloc, &name.text)?;
    Ok(Stmt::DeclareThread(thread))
}

/// An assignment: its left side, then its right side.
#[tactic(auto, using(crate::proofs::Firsts::first_left, crate::proofs::Firsts::first_right, crate::proofs::Firsts::none_of))]
fn assign(
    alloc: Global,
    file: &FileScope,
    body: &BodyScope,
    name: &RawName,
    value: &RawExpr,
) -> Result<Stmt, FrontFault>
    ensures { Checks result (number_faults file.now body.now name.now ++ expr_faults file.now body.now value.now) (becomes.Assign (target_of (meaning file.now body.now name.now.text)) (expr_of file.now body.now value.now)) }
{
    let to = target(file, body, name)?;
    let value = expr(alloc, file, body, value)?;
    Ok(Stmt::Assign(to, value))
}

/// A call as a statement: its name, then its arguments.
#[tactic(auto, using(crate::proofs::Firsts::first_left, crate::proofs::Firsts::first_right, crate::proofs::Firsts::none_of))]
fn call_only(
    alloc: Global,
    file: &FileScope,
    body: &BodyScope,
    name: &RawName,
    args: &[RawExpr],
) -> Result<Stmt, FrontFault>
    ensures { Checks result (plain_call_faults file.now body.now name.now (length args.now) ++ args_faults file.now body.now args.now) (becomes.CallOnly (function_number (meaning file.now body.now name.now.text)) (map (expr_of file.now body.now) args.now)) }
{
    let function = called_alone(file, body, name, args.len())?;
    let args = exprs(alloc, file, body, args)?;
    Ok(Stmt::CallOnly(function, args))
}

/// A thread begins: its variable, then its function.
#[tactic(auto, using(crate::proofs::Firsts::first_left, crate::proofs::Firsts::first_right, crate::proofs::Firsts::none_of))]
fn create(
    file: &FileScope,
    body: &BodyScope,
    variable: &RawName,
    function: &RawName,
) -> Result<Stmt, FrontFault>
    ensures { Checks result (thread_faults file.now body.now variable.now ++ started_faults file.now body.now function.now) (becomes.Create (thread_number (meaning file.now body.now variable.now.text)) (function_number (meaning file.now body.now function.now.text))) }
{
    let thread = thread_variable(file, body, variable)?;
    let function = started(file, body, function)?;
    Ok(Stmt::Create(thread, function))
}

/// A `return`, then its value.
#[tactic(auto, using(crate::proofs::Firsts::first_left, crate::proofs::Firsts::first_right, crate::proofs::Firsts::none_of))]
fn returned(
    alloc: Global,
    file: &FileScope,
    body: &BodyScope,
    value: &RawReturn,
    place: Place,
) -> Result<Stmt, FrontFault>
    ensures { Checks result (return_faults body.now.kind value.now place ++ optional_faults file.now body.now (return_value value.now)) (becomes.Return (optional_of file.now body.now (return_value value.now))) }
{
    check_return(body.kind(), value, place)?;
    match value {
        RawReturn::Plain => Ok(Stmt::Return(None)),
        RawReturn::Null => Ok(Stmt::Return(None)),
        RawReturn::Value(value) => {
            let value = expr(alloc, file, body, value)?;
            Ok(Stmt::Return(Some(value)))
        }
    }
}

/// A statement that has no statements in it. Of any other it tells nothing.
#[tactic(auto, using(crate::proofs::Firsts::want_is_first))]
pub(crate) fn simple(
    alloc: Global,
    file: &FileScope,
    body: &mut BodyScope,
    in_loop: bool,
    raw: &RawStmt,
    place: Place,
) -> Result<Stmt, FrontFault>
    requires { is_simple raw.now ≡ true }
    ensures { let reading = reading_at file.now raw.now place in Reads result (reading.faults in_loop body.old) (reading.becomes body.old).stmt body.new (reading.after body.old) }
{
    match raw {
        RawStmt::Declare(width, name, initial) => {
            declare(alloc, file, body, *width, name, initial)
        }
        RawStmt::DeclareThread(name) => declare_thread(alloc, body, name),
        RawStmt::Assign(name, value) => assign(alloc, file, body, name, value),
        RawStmt::CallOnly(name, args) => call_only(alloc, file, body, name, args.as_slice()),
        RawStmt::Break => {
            check_jump(in_loop, place)?;
            Ok(Stmt::Break)
        }
        RawStmt::Continue => {
            check_jump(in_loop, place)?;
            Ok(Stmt::Continue)
        }
        RawStmt::Return(value) => returned(alloc, file, body, value, place),
        RawStmt::Create(variable, function) => create(file, body, variable, function),
        RawStmt::Join(variable) => Ok(Stmt::Join(thread_variable(file, body, variable)?)),
        RawStmt::Lock(name) => Ok(Stmt::Lock(mutex(file, body, name)?)),
        RawStmt::Unlock(name) => Ok(Stmt::Unlock(mutex(file, body, name)?)),
        RawStmt::Assert(test) => Ok(Stmt::Assert(expr(alloc, file, body, test)?)),
        RawStmt::Empty => Ok(Stmt::Empty),
        _ => unreachable!(),
    }
}

//! Watched expressions.
ghost use Rattle.std.specs.Prelude.{◌≡◌, ◌++◌, [], IfOk, IfSome, IsErrOf, IsOk, IsSome, None, Some};
ghost use Rattle.gob_tree.specs.Formed.{IsFormed};
ghost use Rattle.state_dom.specs.Evaluation.{interval_of};
ghost use Rattle.arg_graph.specs.Vertices.{IsVertex};
ghost use Rattle.breakpoint_eval.specs.Names.{places_of};
ghost use Rattle.breakpoint_eval.specs.Watching.{global_intervals, interval_at, placed_at, watched};
ghost use Rattle.breakpoint_eval.specs.declared.fault.WatchFault.TheVariants as faults;

use crate::fault::WatchFault;
use crate::placing::placed;
use crate::reading::{Seen, evaluate};
use crate::vertices::{global_intervals, slots_at, state_at};
use arg_graph::Vertex;
use c_parse::RawExpr;
use constraint_sys::Table;
use gob_tree::{Expr, GlobalDecl, Memory, Program};
use interval_dom::Interval;
use state_dom::State;
use std::alloc::Global;

/// The interval of an expression at a vertex, or without one of the globals alone; `None` exactly where
/// it has no value. A name is the first declared int local of that name in the vertex's function, its
/// parameters among them, and else a global.
///
/// # Errors
///
/// `Name` where a name is neither; `Memory` for want of memory.
pub fn watch(
    alloc: Global,
    e: &RawExpr,
    program: &Program,
    table: &Table,
    v: Option<Vertex>,
) -> Result<Option<Interval>, WatchFault>
    requires formed { IsFormed program.now }
    requires vertex { IfSome v (λ v. IsVertex table.now v) }
    ensures value { IfOk result (λ interval. interval ≡ watched program.now table.now v e.now) }
    ensures known { IsOk result → IsSome (placed_at program.now v e.now) }
    ensures name { IsErrOf result faults.Name → placed_at program.now v e.now ≡ None }
{
    let Some(x) = placed_at(alloc, program, v, e)? else {
        return Err(WatchFault::Name);
    };
    let globals = global_intervals(alloc, program, table)?;
    match v {
        Some(v) => Ok(interval_at(program, table, globals.as_slice(), &v, &x)),
        None => Ok(interval_of_globals(alloc, program.globals.as_slice(), globals.as_slice(), &x)?),
    }
}

/// The expression with its names as places at a vertex, or among the globals alone.
fn placed_at(
    alloc: Global,
    program: &Program,
    v: Option<Vertex>,
    e: &RawExpr,
) -> Result<Option<Expr>, Memory>
    requires { IsFormed program.now }
    ensures { IfOk result (λ x. x ≡ placed_at program.now v e.now) }
{
    match v {
        Some(v) => {
            let slots = slots_at(program, v.func);
            placed(alloc, slots, program.globals.as_slice(), e)
        }
        None => placed(alloc, &[], program.globals.as_slice(), e),
    }
}

/// The interval of an expression over places at a vertex, by those of all globals.
pub(crate) fn interval_at(
    program: &Program,
    table: &Table,
    globals: &[Interval],
    v: &Vertex,
    x: &Expr,
) -> Option<Interval>
    requires globals { globals.now ≡ global_intervals program.now table.now }
    requires vertex { IsVertex table.now v.now }
    ensures { result ≡ interval_at program.now table.now (Some v.now) x.now }
{
    let seen = Seen {
        slots: slots_at(program, v.func),
        state: state_at(table, v),
        declared: program.globals.as_slice(),
        globals,
    };
    evaluate(&seen, x).value
}

/// The interval of an expression over globals alone, by their intervals.
fn interval_of_globals(
    alloc: Global,
    declared: &[GlobalDecl],
    globals: &[Interval],
    x: &Expr,
) -> Result<Option<Interval>, Memory>
    ensures { IfOk result (λ interval. interval ≡ interval_of (places_of [] declared.now) ([] ++ globals.now) x.now) }
{
    let nothing = State::bottom(alloc, 0)?;
    let seen = Seen {
        slots: &[],
        state: &nothing,
        declared,
        globals,
    };
    Ok(evaluate(&seen, x).value)
}

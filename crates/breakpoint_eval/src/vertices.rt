//! What a table knows at vertices, and of globals.
ghost use Rattle.std.specs.Prelude.{◌≡◌, ◌≤◌, IfOk, Some, length, true, unwrap_or};
ghost use Rattle.std.specs.Option.{option_copied};
ghost use Rattle.gob_tree.specs.declared.graph.Program.{Program as TheProgram};
ghost use Rattle.gob_tree.specs.Formed.{IsFormed};
ghost use Rattle.state_dom.specs.Operators.{full_of};
ghost use Rattle.state_dom.specs.StateValue.{is_reached};
ghost use Rattle.constraint_sys.specs.declared.unknown.Unknown.TheVariants.{Point};
ghost use Rattle.constraint_sys.specs.declared.value.Value.TheVariants.{State as Stated};
ghost use Rattle.constraint_sys.specs.Table.{shown, slots_at, state_at, value_at};
ghost use Rattle.constraint_sys.specs.Transfer.{number_at, shown_number};
ghost use Rattle.arg_graph.specs.Vertices.{IsVertex, has_state};
ghost use Rattle.breakpoint_eval.specs.Watching.{global_intervals};

use arg_graph::Vertex;
use constraint_sys::{Table, Unknown, Value};
use gob_tree::{Memory, Program, Slot, Width};
use interval_dom::Interval;
use state_dom::{State, interval_width};
use std::alloc::Global;

/// The state at a vertex of a table.
#[tactic(auto, using(crate::proofs::Standing::reached_there, crate::proofs::Standing::state_is))]
pub(crate) fn state_at<'t>(table: &'t Table, v: &Vertex) -> &'t State
    requires { IsVertex table.now v.now }
    ensures value { value_at table.now (Point v.now.func v.now.key v.now.node) ≡ Some (Stated result.now) }
    ensures state { (p : TheProgram) → result.now ≡ state_at p table.now v.now.func v.now.key v.now.node }
    ensures reached { is_reached result.now ≡ true }
{
    let point = Unknown::Point {
        func: v.func,
        key: v.key,
        node: v.node,
    };
    state_of(table.get(&point))
}

/// The state that a value is.
fn state_of(value: Option<&Value>) -> &State
    requires { has_state (option_copied value) ≡ true }
    ensures { option_copied value.entry ≡ Some (Stated result.now) }
{
    match value {
        Some(Value::State(state)) => state,
        Some(Value::Number(_)) => unreachable!(),
        None => unreachable!(),
    }
}

/// The slots of a function; none where there is no such function.
pub(crate) fn slots_at(program: &Program, func: u16) -> &[Slot]
    ensures value { result.now ≡ slots_at program.now func }
    ensures limit { IsFormed program.now → length result.now ≤ 128 }
{
    match program.funcs.as_slice().get(func as usize) {
        Some(function) => function.slots.as_slice(),
        None => &[],
    }
}

/// The intervals of all globals; `Memory` is want of memory.
pub(crate) fn global_intervals(
    alloc: Global,
    program: &Program,
    table: &Table,
) -> Result<Vec<Interval>, Memory>
    requires { IsFormed program.now }
    ensures { IfOk result (λ intervals. intervals.items ≡ global_intervals program.now table.now) }
{
    let mut intervals = Vec::new(alloc);
    for (g, decl) in program.globals.as_slice().iter().enumerate() {
        intervals.push(global_interval(table, g as u16, decl.width))?;
    }
    Ok(intervals)
}

/// The interval of a global; where the table has none, that of all numbers of its width.
fn global_interval(table: &Table, g: u16, width: Width) -> Interval
    ensures { result ≡ unwrap_or (number_at table.now g) (full_of width) }
{
    number_or_full(table.get(&Unknown::Global(g)), width)
}

/// The interval that a value is, or else that of all numbers of a width.
#[tactic(auto, using(crate::proofs::Standing::state_has_no_number))]
fn number_or_full(value: Option<&Value>, width: Width) -> Interval
    ensures { result ≡ unwrap_or (shown_number (shown (option_copied value.entry))) (full_of width) }
{
    match value {
        Some(Value::Number(interval)) => *interval,
        Some(Value::State(_)) => Interval::full(interval_width(width)),
        None => Interval::full(interval_width(width)),
    }
}

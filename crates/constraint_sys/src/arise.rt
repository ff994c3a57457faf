//! The entries that arise in a turn.
ghost use Rattle.std.specs.Prelude.{◌≡◌, ◌++◌, ◌≤◌, All, List, None, OnOk, filter, length, take};
ghost use Rattle.gob_tree.specs.Formed.{IsFormed};
ghost use Rattle.constraint_sys.specs.Arising.{CanRaise, arisen_in_each};
ghost use Rattle.constraint_sys.specs.Table.{TableValue, value_at};
ghost use Rattle.constraint_sys.specs.Turn.{arising, bottoms, is_absent};

use crate::functions::{function_at, room};
use crate::keys::point;
use crate::table::Table;
use crate::unknown::{Key, Unknown};
use crate::value::{Effect, Value};
use gob_tree::{FuncGraph, Memory, Program};
use state_dom::State;
use std::alloc::Global;

/// Adds the target of each raise, where it isn't there; `Memory` is want of memory, and leaves the
/// entries that were there first.
pub(crate) fn arise_each(
    alloc: Global,
    program: &Program,
    table: &mut Table,
    raises: &[Effect],
) -> Result<(), Memory>
    requires formed { IsFormed program.now }
    requires fit { All (CanRaise program.now table.old) raises.now }
    ensures ok { OnOk result (table.new ≡ arisen_in_each program.now table.old raises.now) }
    ensures begins { (more : TableValue) × (table.new ≡ table.old ++ more) }
{
    for e in raises {
        if table.get(&e.target).is_none() {
            arise(alloc, program, table, e)?;
        }
    }
    Ok(())
}

/// Adds a target; a start brings the nodes of its function and context that are absent.
fn arise(alloc: Global, program: &Program, table: &mut Table, e: &Effect) -> Result<(), Memory>
    requires formed { IsFormed program.now }
    requires fit { CanRaise program.now table.old e.now }
    requires absent { value_at table.old e.now.target ≡ None }
    ensures ok { OnOk result (table.new ≡ table.old ++ arising program.now table.old e.now.target e.now.value) }
    ensures begins { (more : TableValue) × (table.new ≡ table.old ++ more) }
{
    table.add(e.target, e.value.copy(alloc)?)?;
    match &e.target {
        Unknown::Point { func, key, node } if *node == 0 => {
            add_fellows(alloc, table, *func, key, function_at(program, *func))
        }
        _ => Ok(()),
    }
}

/// Adds the nodes but the start that are absent, as Bottom.
fn add_fellows(
    alloc: Global,
    table: &mut Table,
    func: u16,
    key: &Key,
    function: &FuncGraph,
) -> Result<(), Memory>
    requires slots_limit { length function.now.slots ≤ 128 }
    requires entry_and_exit { 2 ≤ length function.now.nodes }
    requires nodes_limit { length function.now.nodes ≤ 4096 }
    ensures ok { OnOk result (table.new ≡ table.old ++ filter (is_absent table.old) (bottoms (length function.now.slots) func key.now (length function.now.nodes))) }
    ensures begins { (more : TableValue) × (table.new ≡ table.old ++ more) }
{
    let slots = room(function);
    let nodes = function.nodes.len() as u16;
    for node in 1..nodes {
        let fellow = point(func, key, node);
        if table.get(&fellow).is_none() {
            let bottom = State::bottom(alloc, slots)?;
            table.add(fellow, Value::State(bottom))?;
        }
    }
    Ok(())
}

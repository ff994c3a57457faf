//! The table to begin with.
ghost use Rattle.std.specs.Prelude.{◌≡◌, ◌++◌, ◌≤◌, [], ◌∷◌, ℕ, IfOk, OnOk, None, length};
ghost use Rattle.gob_tree.specs.Formed.{IsFormed};
ghost use Rattle.state_dom.specs.StateValue.{start_of};
ghost use Rattle.constraint_sys.specs.PostSolution.{initial_value, main_start_value};
ghost use Rattle.constraint_sys.specs.Sound.{IsShapedEntry};
ghost use Rattle.constraint_sys.specs.Table.{value_at, empty_key, main_start};
ghost use Rattle.constraint_sys.specs.Turn.{initial_table, initial_dirty, initial_globals, bottoms, nodes_after_start};
ghost use Rattle.constraint_sys.specs.declared.unknown.Unknown.TheVariants.{Point, Global as GlobalOf};
ghost use Rattle.constraint_sys.specs.declared.value.Value.TheVariants.{State as StateOf};

use crate::dirty::Dirty;
use crate::functions::{function_at, room};
use crate::keys::empty_key;
use crate::table::Table;
use crate::unknown::Unknown;
use crate::value::Value;
use gob_tree::{FuncGraph, GlobalDecl, Memory, Program};
use interval_dom::Interval;
use state_dom::State;
use std::alloc::Global;

/// The table with `main`'s start and the globals at their initial values, and `main`'s other nodes as
/// Bottom; these are dirty. `Memory` is want of memory.
pub fn initial(alloc: Global, program: &Program) -> Result<(Table, Dirty), Memory>
    requires { IsFormed program.now }
    ensures table { IfOk result (λ both. both.0 ≡ initial_table program.now) }
    ensures dirty { IfOk result (λ both. both.1 ≡ initial_dirty program.now) }
{
    let main = function_at(program, program.main);
    let mut table = with_start(alloc, program.main, main)?;
    add_nodes(alloc, &mut table, program.main, main)?;
    add_globals(&mut table, program.globals.as_slice())?;
    let points = nodes_after_start(alloc, program.main, main)?;
    let mut dirty = Dirty::new(alloc);
    dirty.add(alloc, points.as_slice())?;
    Ok((table, dirty))
}

fn point(func: u16, node: u16) -> Unknown
    ensures { result ≡ Point func empty_key node }
{
    Unknown::Point {
        func,
        key: empty_key(),
        node,
    }
}

/// The table with the start of a function alone.
fn with_start(alloc: Global, func: u16, function: &FuncGraph) -> Result<Table, Memory>
    requires { length function.now.slots ≤ 128 }
    ensures { IfOk result (λ t. t ≡ (Point func empty_key 0, StateOf (start_of (length function.now.slots))) ∷ []) }
{
    let mut table = Table::new(alloc);
    let start = State::start(alloc, room(function))?;
    table.add(point(func, 0), Value::State(start))?;
    Ok(table)
}

/// Adds a function's nodes but the start, as Bottom.
fn add_nodes(
    alloc: Global,
    table: &mut Table,
    func: u16,
    function: &FuncGraph,
) -> Result<(), Memory>
    requires slots_limit { length function.now.slots ≤ 128 }
    requires entry_and_exit { 2 ≤ length function.now.nodes }
    requires nodes_limit { length function.now.nodes ≤ 4096 }
    requires absent { (node : ℕ) → 1 ≤ node → value_at table.old (Point func empty_key node) ≡ None }
    ensures nodes { OnOk result (table.new ≡ table.old ++ bottoms (length function.now.slots) func empty_key (length function.now.nodes)) }
    ensures globals { (g : ℕ) → OnOk result (value_at table.new (GlobalOf g) ≡ value_at table.old (GlobalOf g)) }
{
    let slots = room(function);
    let nodes = function.nodes.len() as u16;
    for node in 1..nodes {
        let bottom = State::bottom(alloc, slots)?;
        table.add(point(func, node), Value::State(bottom))?;
    }
    Ok(())
}

/// Adds the globals at their initial values.
fn add_globals(table: &mut Table, globals: &[GlobalDecl]) -> Result<(), Memory>
    requires limit { length globals.now ≤ 64 }
    requires absent { (g : ℕ) → value_at table.old (GlobalOf g) ≡ None }
    ensures { OnOk result (table.new ≡ table.old ++ initial_globals 0 globals.now) }
{
    let count = globals.len() as u16;
    for g in 0..count {
        let value = initial_value(&globals[g as usize]);
        table.add(Unknown::Global(g), value)?;
    }
    Ok(())
}

/// The value with which a global begins: the interval of its initial value alone.
pub fn initial_value(global: &GlobalDecl) -> Value
    ensures { result ≡ initial_value global.now }
{
    match Interval::new(global.initial, global.initial) {
        Some(one) => Value::Number(one),
        None => unreachable!(),
    }
}

/// `main`'s start.
pub fn main_start(program: &Program) -> Unknown
    ensures { result ≡ main_start program.now }
{
    point(program.main, 0)
}

/// The value with which `main` begins: each slot is 0 and no mutex is held. `Memory` is want of memory.
pub fn main_start_value(alloc: Global, program: &Program) -> Result<Value, Memory>
    requires { IsFormed program.now }
    ensures value { IfOk result (λ v. v ≡ main_start_value program.now) }
    ensures fits { IfOk result (λ v. IsShapedEntry program.now (main_start program.now) v) }
{
    let main = function_at(program, program.main);
    let start = State::start(alloc, room(main))?;
    Ok(Value::State(start))
}

/// A function's nodes but the start.
fn nodes_after_start(alloc: Global, func: u16, function: &FuncGraph) -> Result<Vec<Unknown>, Memory>
    requires entry_and_exit { 2 ≤ length function.now.nodes }
    requires nodes_limit { length function.now.nodes ≤ 4096 }
    ensures { IfOk result (λ us. us.items ≡ nodes_after_start func empty_key (length function.now.nodes)) }
{
    let nodes = function.nodes.len() as u16;
    let mut points = Vec::new(alloc);
    for node in 1..nodes {
        points.push(point(func, node))?;
    }
    Ok(points)
}

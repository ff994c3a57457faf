//! The nodes that a start lacks.
ghost use Rattle.std.specs.Prelude.{◌≡◌, ◌≤◌, ◌++◌, ◌∷◌, [], IfOk, OnOk, filter};
ghost use Rattle.std.specs.Map.{keys_of};
ghost use Rattle.gob_tree.specs.Formed.{IsFormed};
ghost use Rattle.state_dom.specs.StateValue.{Bottom};
ghost use Rattle.constraint_sys.specs.Carry.{lacking};
ghost use Rattle.constraint_sys.specs.Table.{IsThere};
ghost use Rattle.constraint_sys.specs.Turn.{bottoms, fellows, is_absent};
ghost use Rattle.constraint_sys.specs.declared.unknown.Unknown.{Unknown as TheUnknown};
ghost use Rattle.constraint_sys.specs.declared.value.Value.TheVariants.{State as StateOf};
ghost use Rattle.destabilise.specs.Linked.{IsOfProgram};

use crate::entries::unknown_at;
use constraint_sys::{Key, Table, Unknown, Value, function_at};
use gob_tree::{Memory, Program};
use state_dom::State;
use std::alloc::Global;

/// Adds, as Bottom, each node that a start of the table lacks, and gives these nodes.
pub(crate) fn add_lacking(
    alloc: Global,
    program: &Program,
    table: &mut Table,
) -> Result<Vec<Unknown>, Memory>
    requires formed { IsFormed program.now }
    requires of_program { (u : TheUnknown) → IsThere table.old u → IsOfProgram program.now u }
    ensures table { OnOk result (table.new ≡ table.old ++ lacking program.now table.old) }
    ensures added { IfOk result (λ added. added.items ≡ keys_of (lacking program.now table.old)) }
{
    let mut added = Vec::new(alloc);
    for i in 0..table.len() {
        let u = unknown_at(table, i);
        add_nodes(alloc, program, table, &mut added, &u)?;
    }
    Ok(added)
}

/// Adds the nodes that a start lacks, to the table and to a list.
fn add_nodes(
    alloc: Global,
    program: &Program,
    table: &mut Table,
    added: &mut Vec<Unknown>,
    u: &Unknown,
) -> Result<(), Memory>
    requires formed { IsFormed program.now }
    requires of_program { IsOfProgram program.now u.now }
    ensures table { OnOk result (table.new ≡ table.old ++ filter (is_absent table.old) (fellows program.now u.now)) }
    ensures added { OnOk result (added.new.items ≡ added.old.items ++ keys_of (filter (is_absent table.old) (fellows program.now u.now))) }
{
    match u {
        Unknown::Point { func, key, node } if *node == 0 => {
            let function = function_at(program, *func);
            let nodes = function.nodes.len() as u16;
            let room = function.slots.len() as u16;
            add_bottoms(alloc, table, added, *func, key, room, nodes)
        }
        _ => Ok(()),
    }
}

fn add_bottoms(
    alloc: Global,
    table: &mut Table,
    added: &mut Vec<Unknown>,
    func: u16,
    key: &Key,
    room: u16,
    nodes: u16,
) -> Result<(), Memory>
    requires { 1 ≤ nodes }
    ensures table { OnOk result (table.new ≡ table.old ++ filter (is_absent table.old) (bottoms room func key.now nodes)) }
    ensures added { OnOk result (added.new.items ≡ added.old.items ++ keys_of (filter (is_absent table.old) (bottoms room func key.now nodes))) }
{
    for node in 1..nodes {
        let at = Unknown::Point {
            func,
            key: *key,
            node,
        };
        add_bottom(alloc, table, added, at, room)?;
    }
    Ok(())
}

/// Adds a point as Bottom, to the table and to a list, where it is absent.
fn add_bottom(
    alloc: Global,
    table: &mut Table,
    added: &mut Vec<Unknown>,
    at: Unknown,
    room: u16,
) -> Result<(), Memory>
    ensures table { OnOk result (table.new ≡ table.old ++ filter (is_absent table.old) ((at, StateOf (Bottom room)) ∷ [])) }
    ensures added { OnOk result (added.new.items ≡ added.old.items ++ keys_of (filter (is_absent table.old) ((at, StateOf (Bottom room)) ∷ []))) }
{
    if table.get(&at).is_none() {
        table.add(at, Value::State(State::bottom(alloc, room)?))?;
        added.push(at)?;
    }
    Ok(())
}

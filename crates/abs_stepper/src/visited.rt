//! Where a move by statements has been: nodes of one function, each with a mark.
ghost use Rattle.std.specs.Prelude.{◌≡◌, true, false, IfOk, length, replicate, slice_set};
ghost use Rattle.constraint_sys.specs.Table.{nodes_at};
ghost use Rattle.abs_stepper.specs.Statements.{place_of, stays};
ghost use Rattle.abs_stepper.specs.Ways.{is_fresh, is_inside};

use arg_graph::{Label, Vertex};
use gob_tree::{Memory, Place, Program};
use std::alloc::Global;

/// No mark at any node of the vertex's function, but for the vertex's own.
pub(crate) fn visited_at(alloc: Global, program: &Program, v: &Vertex) -> Result<Vec<bool>, Memory>
    ensures { IfOk result (λ been. been.items ≡ slice_set (replicate (length (nodes_at program.now v.now.func)) false) v.now.node true) }
{
    let mut been = vec![in alloc; false; node_count(program, v.func)]?;
    if let Some(mark) = been.get_mut(v.node as usize) {
        *mark = true;
    }
    Ok(been)
}

fn node_count(program: &Program, func: u16) -> usize
    ensures { result ≡ length (nodes_at program.now func) }
{
    match program.funcs.as_slice().get(func as usize) {
        Some(function) => function.nodes.len(),
        None => 0,
    }
}

/// Whether a move that began at a vertex, has been at the marked nodes and took a label is inside its
/// statement at a vertex of the same function.
pub(crate) fn is_inside(
    program: &Program,
    began: &Vertex,
    been: &[bool],
    last: Label,
    v: &Vertex,
) -> bool
    ensures { result ≡ is_inside program.now began.now been.now last v.now }
{
    stays(last)
        && v.node != 1
        && place_of(program, v) == place_of(program, began)
        && is_fresh(been, v.node)
}

/// Whether a node has a mark that isn't set.
fn is_fresh(been: &[bool], node: u16) -> bool
    ensures { result ≡ is_fresh been.now node }
{
    match been.get(node as usize) {
        Some(mark) => !*mark,
        None => false,
    }
}

/// Whether a move may go on in the same function after a label.
fn stays(label: Label) -> bool
    ensures { result ≡ stays label }
{
    match label {
        Label::Do(_) | Label::Over(_) => true,
        Label::Enter(_) | Label::Thread(_) | Label::Leave => false,
    }
}

/// The place of a vertex's node, if the program has the node.
fn place_of(program: &Program, v: &Vertex) -> Option<Place>
    ensures { result ≡ place_of program.now v.now }
{
    match program.funcs.as_slice().get(v.func as usize) {
        Some(function) => function.nodes.as_slice().get(v.node as usize).copied(),
        None => None,
    }
}

//! Moves by statements.
ghost use Rattle.std.specs.Prelude.{◌≡◌, ◌<◌, [], IfOk, IfErr, IsSome, IsSomeAnd, None, Some, length};
ghost use Rattle.gob_tree.specs.Formed.{IsFormed};
ghost use Rattle.constraint_sys.specs.Table.{TableValue};
ghost use Rattle.arg_graph.specs.Following.{top_of};
ghost use Rattle.arg_graph.specs.Graphs.{IsGraphOf, offered_in};
ghost use Rattle.abs_stepper.specs.Positions.{stack_of};
ghost use Rattle.abs_stepper.specs.Statements.{IsMove, across, entering_at, into, label_in, only, passing_at};
ghost use Rattle.abs_stepper.specs.Ways.{chosen};
ghost use Rattle.abs_stepper.specs.declared.fault.MoveFault.TheVariants as faults;

use crate::choice::{Way, chosen, passing_at};
use crate::fault::MoveFault;
use crate::position::Position;
use crate::stepping::{moved_together, stack_of};
use crate::visited::{is_inside, visited_at};
use arg_graph::{Frame, Graph, Label, Vertex};
use gob_tree::{Memory, Program};
use std::alloc::Global;

/// The position after a statement move of the thread: steps by the one label among `Do`, `Over` and
/// `Leave` that is offered to it. After the first, a further one follows as long as the last wasn't
/// `Leave`, the thread stands inside the statement at which it began and not at node 1, hasn't been
/// at its vertex in this move, and is offered one such label alone. Others move along as in `step`.
///
/// # Errors
///
/// `UnknownThread` where no thread has the id; else `Branching` where more than one such label is
/// offered to it at the start, and `NoStep` where none is; `Memory` for want of memory.
pub fn advance(
    alloc: Global,
    at: &Position,
    graph: &Graph,
    program: &Program,
    thread: u32,
) -> Result<Position, MoveFault>
    requires formed { IsFormed program.now }
    requires graph { (t : TableValue) × IsGraphOf program.now t graph.now }
    ensures ok { IfOk result (λ new. IsMove program.now (offered_in graph.now) (across (offered_in graph.now)) thread at.now new) }
    ensures unknown { IfErr result (λ e. e ≡ faults.UnknownThread → stack_of at.now thread ≡ None) }
    ensures branching { IfErr result (λ e. e ≡ faults.Branching → IsSomeAnd (stack_of at.now thread) (λ stack. 1 < length (passing_at (offered_in graph.now) stack))) }
    ensures no_step { IfErr result (λ e. e ≡ faults.NoStep → IsSomeAnd (stack_of at.now thread) (λ stack. passing_at (offered_in graph.now) stack ≡ [])) }
{
    moved(alloc, Way::Across, at, graph, program, thread)
}

/// The position after a statement entry of the thread: a statement move, but at the first of the
/// thread's vertices on its way, the one where it begins among them, that offers one `Enter` alone,
/// that is taken and ends it.
///
/// # Errors
///
/// `UnknownThread` where no thread has the id; else, where not one `Enter` alone is offered to it at the
/// start, `Branching` where more than one label among `Do`, `Over` and `Leave` is, and `NoStep` where
/// none is; `Memory` for want of memory.
pub fn enter(
    alloc: Global,
    at: &Position,
    graph: &Graph,
    program: &Program,
    thread: u32,
) -> Result<Position, MoveFault>
    requires formed { IsFormed program.now }
    requires graph { (t : TableValue) × IsGraphOf program.now t graph.now }
    ensures ok { IfOk result (λ new. IsMove program.now (offered_in graph.now) (into (offered_in graph.now)) thread at.now new) }
    ensures unknown { IfErr result (λ e. e ≡ faults.UnknownThread → stack_of at.now thread ≡ None) }
    ensures branching { IfErr result (λ e. e ≡ faults.Branching → IsSomeAnd (stack_of at.now thread) (λ stack. (only (entering_at (offered_in graph.now) stack) ≡ None) × (1 < length (passing_at (offered_in graph.now) stack)))) }
    ensures no_step { IfErr result (λ e. e ≡ faults.NoStep → IsSomeAnd (stack_of at.now thread) (λ stack. (only (entering_at (offered_in graph.now) stack) ≡ None) × (passing_at (offered_in graph.now) stack ≡ []))) }
{
    moved(alloc, Way::Into, at, graph, program, thread)
}

/// The move of a way.
fn moved(
    alloc: Global,
    way: Way,
    at: &Position,
    graph: &Graph,
    program: &Program,
    thread: u32,
) -> Result<Position, MoveFault>
    requires formed { IsFormed program.now }
    requires graph { (t : TableValue) × IsGraphOf program.now t graph.now }
    ensures ok { IfOk result (λ new. IsMove program.now (offered_in graph.now) (chosen way (offered_in graph.now)) thread at.now new) }
    ensures unknown { IfErr result (λ e. e ≡ faults.UnknownThread → stack_of at.now thread ≡ None) }
    ensures branching { IfErr result (λ e. e ≡ faults.Branching → IsSomeAnd (stack_of at.now thread) (λ stack. (chosen way (offered_in graph.now) stack ≡ None) × (1 < length (passing_at (offered_in graph.now) stack)))) }
    ensures no_step { IfErr result (λ e. e ≡ faults.NoStep → IsSomeAnd (stack_of at.now thread) (λ stack. (chosen way (offered_in graph.now) stack ≡ None) × (passing_at (offered_in graph.now) stack ≡ []))) }
{
    let Some(stack) = stack_of(at.threads(), thread) else {
        return Err(MoveFault::UnknownThread);
    };
    match chosen(alloc, way, graph, stack)? {
        Some(label) => Ok(moved_on(alloc, way, at, graph, program, thread, label)?),
        None => {
            if passing_at(alloc, graph, stack)?.is_empty() {
                Err(MoveFault::NoStep)
            } else {
                Err(MoveFault::Branching)
            }
        }
    }
}

/// The move of a way whose first step has a label.
fn moved_on(
    alloc: Global,
    way: Way,
    at: &Position,
    graph: &Graph,
    program: &Program,
    thread: u32,
    label: Label,
) -> Result<Position, Memory>
    requires formed { IsFormed program.now }
    requires graph { (t : TableValue) × IsGraphOf program.now t graph.now }
    requires first { label_in (chosen way (offered_in graph.now)) at.now thread ≡ Some label }
    ensures { IfOk result (λ new. IsMove program.now (offered_in graph.now) (chosen way (offered_in graph.now)) thread at.now new) }
{
    let Some(stack) = stack_of(at.threads(), thread) else {
        unreachable!();
    };
    let began = top_vertex(stack);
    let mut been = visited_at(alloc, program, &began)?;
    let mut last = label;
    let mut now = moved_together(alloc, at, graph, label, stack)?;
    'steps: loop {
        let Some(stack) = stack_of(now.threads(), thread) else {
            unreachable!();
        };
        let top = top_vertex(stack);
        if !is_inside(program, &began, been.as_slice(), last, &top) {
            return Ok(now);
        }
        let Some(next) = chosen(alloc, way, graph, stack)? else {
            return Ok(now);
        };
        let new = moved_together(alloc, &now, graph, next, stack)?;
        been[top.node as usize] = true;
        last = next;
        now = new;
    }
}

/// The vertex of the last frame.
fn top_vertex(stack: &[Frame]) -> Vertex
    requires { IsSome (top_of stack.now) }
    ensures { top_of stack.now ≡ Some result }
{
    match stack {
        [] => unreachable!(),
        [_below @ .., top] => top.vertex,
    }
}

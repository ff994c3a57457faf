//! Steps by single edges.
ghost use Rattle.std.specs.Prelude.{◌≡◌, ◌++◌, [], ◌∷◌, ℕ, IfOk, IfErr, IsSome, IsSomeAnd, IsTrue, OnOk, None, Some, Contains, filter_map, map};
ghost use Rattle.std.specs.Option.{option_copied, option_to_list};
ghost use Rattle.gob_tree.specs.declared.graph.Program.{Program as TheProgram};
ghost use Rattle.constraint_sys.specs.PostSolution.{IsPostSolution};
ghost use Rattle.constraint_sys.specs.Table.{TableValue};
ghost use Rattle.arg_graph.specs.Following.{StackValue, left, moved, returned, top_of};
ghost use Rattle.arg_graph.specs.Graphs.{IsGraphOf, offered_in, vertices_in};
ghost use Rattle.arg_graph.specs.Vertices.{start_in};
ghost use Rattle.arg_graph.specs.declared.vertex.Step.{Step as TheStep};
ghost use Rattle.abs_stepper.specs.Positions.{entry_of, stack_of};
ghost use Rattle.abs_stepper.specs.Stepping.{IsStepped, IsSteppedOut, caller_of, goes_along, labels_at, leaving, moved_along, returned_along, same_call, steps_at_top, with_stack};
ghost use Rattle.abs_stepper.specs.declared.fault.StepFault.TheVariants as faults;

use crate::fault::StepFault;
use crate::position::{Position, Thread};
use arg_graph::{Frame, Graph, Label, Stack, Step, Vertex, moved, returned};
use constraint_sys::{ArgKey, Key};
use gob_tree::{Memory, Program, Seq};
use lockset_dom::Locks;
use std::alloc::Global;

/// Thread 1 at the start of `main`, which is a vertex of the graph. `Memory` is want of memory.
pub fn entry(alloc: Global, program: &Program, graph: &Graph) -> Result<Position, Memory>
    requires { (t : TableValue) × IsPostSolution program.now t × IsGraphOf program.now t graph.now }
    ensures position { IfOk result (λ p. p ≡ entry_of program.now) }
    ensures vertex { Contains (vertices_in graph.now) (start_in program.now.main) }
{
    let key = Key {
        a: ArgKey::Absent,
        b: ArgKey::Absent,
        locks: Locks::empty(),
    };
    let start = Vertex {
        func: program.main,
        key,
        node: 0,
    };
    let mut stack = Seq::new(alloc);
    stack.push(Frame {
        vertex: start,
        call: None,
    })?;
    let mut threads = Seq::new(alloc);
    threads.push(Thread { id: 1, stack })?;
    Ok(Position::of(threads))
}

/// The labels that are offered to a thread: those of its top vertex, in the order of steps, and then
/// `Leave` where it can be taken. `Memory` is want of memory.
pub fn offered(
    alloc: Global,
    graph: &Graph,
    at: &Position,
    thread: u32,
) -> Result<Vec<Label>, Memory>
    requires { IsSome (stack_of at.now thread) }
    ensures { (stack : StackValue) → stack_of at.now thread ≡ Some stack → IfOk result (λ labels. labels.items ≡ labels_at (offered_in graph.now) stack) }
{
    match stack_of(at.threads(), thread) {
        Some(stack) => labels_at(alloc, graph, stack),
        None => unreachable!(),
    }
}

/// The position after a step of the thread with a label. Each other thread that can take the label moves
/// along, for `Leave` only one that goes back to the same call; the others are dropped. Ids and order
/// stay.
///
/// # Errors
///
/// `UnknownThread` where no thread has the id; else `NotOffered` where the label isn't offered to the
/// thread; `Memory` for want of memory.
pub fn step(
    alloc: Global,
    at: &Position,
    graph: &Graph,
    thread: u32,
    label: Label,
) -> Result<Position, StepFault>
    requires { (p : TheProgram) × (t : TableValue) × IsGraphOf p t graph.now }
    ensures ok { IfOk result (λ new. IsStepped (offered_in graph.now) label thread at.now new) }
    ensures unknown { IfErr result (λ e. e ≡ faults.UnknownThread → stack_of at.now thread ≡ None) }
    ensures not_offered { IfErr result (λ e. e ≡ faults.NotOffered → IsSomeAnd (stack_of at.now thread) (λ stack. moved (offered_in graph.now) label stack ≡ None)) }
{
    let Some(named) = stack_of(at.threads(), thread) else {
        return Err(StepFault::UnknownThread);
    };
    if moved(alloc, graph, label, named)?.is_none() {
        return Err(StepFault::NotOffered);
    }
    Ok(moved_together(alloc, at, graph, label, named)?)
}

/// The position after the thread has stepped out to its caller, behind the call, and along with it each
/// other thread that stepped into the same call; the others are dropped. Ids and order stay.
///
/// # Errors
///
/// `UnknownThread` where no thread has the id; else `NotOffered` where the thread has one frame or its
/// caller doesn't offer to go over the call; `Memory` for want of memory.
pub fn out(alloc: Global, at: &Position, graph: &Graph, thread: u32) -> Result<Position, StepFault>
    requires { (p : TheProgram) × (t : TableValue) × IsGraphOf p t graph.now }
    ensures ok { IfOk result (λ new. IsSteppedOut (offered_in graph.now) thread at.now new) }
    ensures unknown { IfErr result (λ e. e ≡ faults.UnknownThread → stack_of at.now thread ≡ None) }
    ensures not_offered { IfErr result (λ e. e ≡ faults.NotOffered → IsSomeAnd (stack_of at.now thread) (λ stack. returned (offered_in graph.now) stack ≡ None)) }
{
    let Some(named) = stack_of(at.threads(), thread) else {
        return Err(StepFault::UnknownThread);
    };
    if returned(alloc, graph, named)?.is_none() {
        return Err(StepFault::NotOffered);
    }
    Ok(returned_together(alloc, at, graph, named)?)
}

/// The position after a step that is offered to the thread with this stack.
pub(crate) fn moved_together(
    alloc: Global,
    at: &Position,
    graph: &Graph,
    label: Label,
    named: &[Frame],
) -> Result<Position, Memory>
    requires graph { (p : TheProgram) × (t : TableValue) × IsGraphOf p t graph.now }
    requires named { (id : ℕ) × (stack_of at.now id ≡ Some named.now) }
    requires offered { IsSome (moved (offered_in graph.now) label named.now) }
    ensures { IfOk result (λ new. new ≡ filter_map (moved_along (offered_in graph.now) label named.now) at.now) }
{
    let threads = all_moved(alloc, graph, label, named, at.threads())?;
    Ok(Position::of(threads))
}

/// The position after the thread with this stack, which can step out, has done so.
fn returned_together(
    alloc: Global,
    at: &Position,
    graph: &Graph,
    named: &[Frame],
) -> Result<Position, Memory>
    requires graph { (p : TheProgram) × (t : TableValue) × IsGraphOf p t graph.now }
    requires named { (id : ℕ) × (stack_of at.now id ≡ Some named.now) }
    requires offered { IsSome (returned (offered_in graph.now) named.now) }
    ensures { IfOk result (λ new. new ≡ filter_map (returned_along (offered_in graph.now) named.now) at.now) }
{
    let threads = all_returned(alloc, graph, named, at.threads())?;
    Ok(Position::of(threads))
}

/// The stack of the thread with an id, if there is one.
pub(crate) fn stack_of(threads: &[Thread], id: u32) -> Option<&[Frame]>
    ensures { option_copied result ≡ stack_of threads.now id }
{
    for thread in threads {
        if thread.id == id {
            return Some(thread.stack.as_slice());
        }
    }
    None
}

/// The labels that are offered to a stack.
pub(crate) fn labels_at(alloc: Global, graph: &Graph, stack: &[Frame]) -> Result<Vec<Label>, Memory>
    ensures { IfOk result (λ labels. labels.items ≡ labels_at (offered_in graph.now) stack.now) }
{
    let mut labels = Vec::new(alloc);
    push_labels(&mut labels, steps_at_top(graph, stack))?;
    push_leaving(alloc, &mut labels, graph, stack)?;
    Ok(labels)
}

/// The steps of the last frame's vertex.
fn steps_at_top<'g>(graph: &'g Graph, stack: &[Frame]) -> &'g [Step]
    ensures { result.now ≡ steps_at_top (offered_in graph.now) (top_of stack.now) }
{
    match stack {
        [] => &[],
        [_below @ .., top] => graph.out(top.vertex),
    }
}

/// Adds `Leave` where it can be taken.
fn push_leaving(
    alloc: Global,
    labels: &mut Vec<Label>,
    graph: &Graph,
    stack: &[Frame],
) -> Result<(), Memory>
    ensures { OnOk result (labels.new.items ≡ labels.old.items ++ leaving (left (offered_in graph.now) stack.now)) }
{
    match moved(alloc, graph, Label::Leave, stack)? {
        Some(_) => {
            labels.push(Label::Leave)?;
            Ok(())
        }
        None => Ok(()),
    }
}

fn push_labels(labels: &mut Vec<Label>, steps: &[Step]) -> Result<(), Memory>
    ensures { OnOk result (labels.new.items ≡ labels.old.items ++ map (λ (s : TheStep). s.label) steps.now) }
{
    for step in steps {
        labels.push(step.label)?;
    }
    Ok(())
}

/// The threads that a step takes along with the one that has this stack.
fn all_moved(
    alloc: Global,
    graph: &Graph,
    label: Label,
    named: &[Frame],
    threads: &[Thread],
) -> Result<Seq<Thread>, Memory>
    ensures { IfOk result (λ new. new ≡ filter_map (moved_along (offered_in graph.now) label named.now) threads.now) }
{
    let mut new = Seq::new(alloc);
    for thread in threads {
        if goes_along(label, named, thread.stack.as_slice()) {
            let stack = moved(alloc, graph, label, thread.stack.as_slice())?;
            push_if_some(&mut new, thread.id, stack)?;
        }
    }
    Ok(new)
}

/// The threads that step out along with the one that has this stack.
fn all_returned(
    alloc: Global,
    graph: &Graph,
    named: &[Frame],
    threads: &[Thread],
) -> Result<Seq<Thread>, Memory>
    ensures { IfOk result (λ new. new ≡ filter_map (returned_along (offered_in graph.now) named.now) threads.now) }
{
    let mut new = Seq::new(alloc);
    for thread in threads {
        if same_call(caller_of(named), caller_of(thread.stack.as_slice())) {
            let stack = returned(alloc, graph, thread.stack.as_slice())?;
            push_if_some(&mut new, thread.id, stack)?;
        }
    }
    Ok(new)
}

fn push_if_some(threads: &mut Seq<Thread>, id: u32, stack: Option<Stack>) -> Result<(), Memory>
    ensures { OnOk result (threads.new ≡ threads.old ++ option_to_list (with_stack id stack)) }
{
    match stack {
        Some(stack) => threads.push(Thread { id, stack }),
        None => Ok(()),
    }
}

fn goes_along(label: Label, named: &[Frame], other: &[Frame]) -> bool
    ensures { result ≡ goes_along label named.now other.now }
{
    match label {
        Label::Leave => same_call(caller_of(named), caller_of(other)),
        _ => true,
    }
}

/// The last frame but one.
fn caller_of(stack: &[Frame]) -> Option<Frame>
    ensures { result ≡ caller_of stack.now }
{
    match stack {
        [_lower @ .., caller, _top] => Some(*caller),
        _ => None,
    }
}

/// Whether both wait at the same edge of the same function.
fn same_call(a: Option<Frame>, b: Option<Frame>) -> bool
    ensures { result ≡ same_call a b }
{
    match (a, b) {
        (Some(x), Some(y)) => x.vertex.func == y.vertex.func && x.call == y.call,
        _ => false,
    }
}

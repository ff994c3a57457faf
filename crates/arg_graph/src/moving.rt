//! What a label makes of a stack.
ghost use Rattle.std.specs.Prelude.{◌≡◌, ◌++◌, ◌∷◌, [], IfOk};
ghost use Rattle.std.specs.Option.{option_to_list};
ghost use Rattle.arg_graph.specs.Following.{goes_on, gone_on, left, moved, returned, rooted, stepped_frames};
ghost use Rattle.arg_graph.specs.Graphs.{offered_in};

use crate::graph::{Graph, target};
use crate::stack::{Frame, Stack};
use crate::vertex::{Label, Vertex};
use gob_tree::{Memory, Seq};
use std::alloc::Global;

/// The stack after a step with a label; `None` exactly where the label isn't offered to the stack.
/// `Do` and `Over` move the last frame, `Enter` puts a frame on it, `Thread` goes on in the new thread
/// alone, and `Leave` drops the last frame, whose caller goes on. `Memory` is want of memory.
pub fn moved(
    alloc: Global,
    graph: &Graph,
    label: Label,
    stack: &[Frame],
) -> Result<Option<Stack>, Memory>
    ensures { IfOk result (λ o. o ≡ moved (offered_in graph.now) label stack.now) }
{
    match stack {
        [] => Ok(None),
        [below @ .., top] => moved_top(alloc, graph, label, below, top),
    }
}

/// The same of a stack whose last frame is given apart.
fn moved_top(
    alloc: Global,
    graph: &Graph,
    label: Label,
    below: &[Frame],
    top: &Frame,
) -> Result<Option<Stack>, Memory>
    ensures { IfOk result (λ o. o ≡ moved (offered_in graph.now) label (below.now ++ top.now ∷ [])) }
{
    match label {
        Label::Leave => left(alloc, graph, below, top),
        _ => match target(graph.out(top.vertex), label) {
            None => Ok(None),
            Some(to) => Ok(Some(stepped(alloc, label, below, top.vertex, to)?)),
        },
    }
}

/// The frames after a step from the last frame's vertex.
fn stepped(
    alloc: Global,
    label: Label,
    below: &[Frame],
    from: Vertex,
    to: Vertex,
) -> Result<Stack, Memory>
    ensures { IfOk result (λ new. new ≡ stepped_frames label below.now from to) }
{
    match label {
        Label::Do(_) | Label::Over(_) | Label::Leave => with_frames(alloc, below, None, to),
        Label::Enter(edge) => {
            let waiting = Frame {
                vertex: from,
                call: Some(edge),
            };
            with_frames(alloc, below, Some(waiting), to)
        }
        Label::Thread(_) => with_frames(alloc, &[], None, to),
    }
}

/// Frames, one more if it is given, and the last at a vertex.
fn with_frames(
    alloc: Global,
    below: &[Frame],
    waiting: Option<Frame>,
    to: Vertex,
) -> Result<Stack, Memory>
    ensures { IfOk result (λ new. new ≡ below.now ++ option_to_list waiting ++ rooted to) }
{
    let mut frames = Vec::from_slice(alloc, below)?;
    if let Some(frame) = waiting {
        frames.push(frame)?;
    }
    let last = Frame {
        vertex: to,
        call: None,
    };
    frames.push(last)?;
    Ok(Seq::from_vec(frames))
}

/// The stack after `Leave`.
fn left(alloc: Global, graph: &Graph, below: &[Frame], top: &Frame) -> Result<Option<Stack>, Memory>
    ensures { IfOk result (λ o. o ≡ left (offered_in graph.now) (below.now ++ top.now ∷ [])) }
{
    if top.vertex.node == 1 {
        gone_on(alloc, graph, below)
    } else {
        Ok(None)
    }
}

/// The stack after the last frame is dropped and its caller goes on behind the call, wherever the frame
/// stands; `None` exactly where it has no caller, or that doesn't offer to go over the call. `Memory`
/// is want of memory.
pub fn returned(alloc: Global, graph: &Graph, stack: &[Frame]) -> Result<Option<Stack>, Memory>
    ensures { IfOk result (λ o. o ≡ returned (offered_in graph.now) stack.now) }
{
    match stack {
        [] => Ok(None),
        [below @ .., _] => gone_on(alloc, graph, below),
    }
}

/// Callers, of which the last goes on behind its call.
fn gone_on(alloc: Global, graph: &Graph, below: &[Frame]) -> Result<Option<Stack>, Memory>
    ensures { IfOk result (λ o. o ≡ gone_on (offered_in graph.now) below.now) }
{
    match below {
        [] => Ok(None),
        [lower @ .., caller] => match behind(graph, caller) {
            None => Ok(None),
            Some(to) => Ok(Some(with_frames(alloc, lower, None, to)?)),
        },
    }
}

/// Where a caller goes on.
fn behind(graph: &Graph, caller: &Frame) -> Option<Vertex>
    ensures { result ≡ goes_on (offered_in graph.now) caller.now.vertex caller.now.call }
{
    match caller.call {
        Some(edge) => graph.after(caller.vertex, edge),
        None => None,
    }
}

//! The frames of a route.
ghost use Rattle.std.specs.Prelude.{◌≡◌, ◌++◌, IfOk, OnOk, slice_get};
ghost use Rattle.arg_chain.specs.Calls.{frame_for, frames_of};

use crate::hop::Hop;
use arg_graph::{Frame, Stack, Vertex};
use gob_tree::{Memory, Seq};
use std::alloc::Global;

/// The frames of hops that lead in turn from a context to a vertex and from a vertex to a context.
pub(crate) fn frames(alloc: Global, vertices: &[Vertex], hops: &[Hop]) -> Result<Stack, Memory>
    ensures { IfOk result (λ s. s ≡ frames_of vertices.now hops.now) }
{
    let mut stack = Seq::new(alloc);
    let mut i = 0;
    while i + 1 < hops.len() {
        push_frame(&mut stack, vertices, hops[i].to, Some(hops[i + 1].edge))?;
        i += 2;
    }
    if i < hops.len() {
        push_frame(&mut stack, vertices, hops[i].to, None)?;
    }
    Ok(stack)
}

fn push_frame(
    stack: &mut Stack,
    vertices: &[Vertex],
    place: usize,
    call: Option<u32>,
) -> Result<(), Memory>
    ensures { OnOk result (stack.new ≡ stack.old ++ frame_for (slice_get vertices.now place) call) }
{
    match vertices.get(place) {
        Some(vertex) => stack.push(Frame {
            vertex: *vertex,
            call,
        }),
        None => Ok(()),
    }
}

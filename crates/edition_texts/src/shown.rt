use crate::begin::program_of;
use abs_stepper::{Position, Thread};
use arg_graph::Vertex;
use edition_core::Edition;

/// What a thread of a position shows: its id, its topmost vertex, the line and column of that vertex's
/// node, and how many frames it has.
#[derive(Clone, Copy, Debug, PartialEq, Eq)]
pub struct Shown {
    pub id: u32,
    pub top: Vertex,
    pub place: (u32, u32),
    pub frames: usize,
}

/// Whether the threads of a position show just this, in this order.
pub(crate) fn are_shown(edition: &Edition, at: &Position, wanted: &[Shown]) -> bool {
    let threads = at.threads();
    if threads.len() != wanted.len() {
        return false;
    }
    for (i, thread) in threads.iter().enumerate() {
        if shown_by(edition, thread) != Some(wanted[i]) {
            return false;
        }
    }
    true
}

/// What a thread shows; `None` where it has no frame or stands at no node of the program.
fn shown_by(edition: &Edition, thread: &Thread) -> Option<Shown> {
    let top = top_of(thread)?;
    Some(Shown {
        id: thread.id,
        top,
        place: place_of(edition, top)?,
        frames: thread.stack.len(),
    })
}

/// The vertex at which a thread stands.
pub(crate) fn top_of(thread: &Thread) -> Option<Vertex> {
    match thread.stack.as_slice() {
        [] => None,
        [_below @ .., top] => Some(top.vertex),
    }
}

/// The line and column of a vertex's node.
fn place_of(edition: &Edition, v: Vertex) -> Option<(u32, u32)> {
    let function = program_of(edition).funcs.as_slice().get(v.func as usize)?;
    let place = function.nodes.as_slice().get(v.node as usize)?;
    Some((place.line, place.column))
}

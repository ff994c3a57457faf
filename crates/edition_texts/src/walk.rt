//! Walks: steps of one thread, one after another.
use crate::begin::program_of;
use crate::pair::pair;
use crate::unanswered::Unanswered;
use abs_stepper::{Position, advance, enter, entry, out, step};
use arg_graph::{Label, Vertex};
use edition_core::Edition;
use gob_tree::Memory;
use std::alloc::Global;

/// Where a walk begins: thread 1 at the start of `main`, or threads 1 and 2 with the least chains of two
/// vertices.
#[derive(Clone, Copy)]
pub enum Start {
    Entry,
    Pair(Vertex, Vertex),
}

/// A step: by an edge, out to the caller, by a statement, or by a statement into a call.
#[derive(Clone, Copy)]
pub enum Way {
    By(Label),
    Out,
    Next,
    Into,
}

/// Steps of one thread from a start on.
#[derive(Clone, Copy)]
pub struct Walk<'w> {
    pub start: Start,
    pub thread: u32,
    pub ways: &'w [Way],
}

/// The position to which a walk leads.
pub(crate) fn position_of(
    alloc: Global,
    edition: &Edition,
    walk: &Walk<'_>,
) -> Result<Position, Unanswered> {
    let mut at = start_of(alloc, edition, walk.start)?;
    for way in walk.ways {
        at = taken(alloc, edition, &at, walk.thread, *way)?;
    }
    Ok(at)
}

fn start_of(alloc: Global, edition: &Edition, start: Start) -> Result<Position, Unanswered> {
    match start {
        Start::Entry => Ok(entered_main(alloc, edition)?),
        Start::Pair(one, other) => pair(alloc, edition, one, other),
    }
}

/// The position after a step of a thread.
fn taken(
    alloc: Global,
    edition: &Edition,
    at: &Position,
    thread: u32,
    way: Way,
) -> Result<Position, Unanswered> {
    match way {
        Way::By(label) => stepped(alloc, edition, at, thread, label),
        Way::Out => stepped_out(alloc, edition, at, thread),
        Way::Next => advanced(alloc, edition, at, thread),
        Way::Into => entered(alloc, edition, at, thread),
    }
}

fn entered_main(alloc: Global, edition: &Edition) -> Result<Position, Memory> {
    let program = program_of(edition);
    // the graph is that of a post-solution: `table` says so
    let _table = edition.table();
    entry(alloc, program, edition.graph())
}

fn stepped(
    alloc: Global,
    edition: &Edition,
    at: &Position,
    thread: u32,
    label: Label,
) -> Result<Position, Unanswered> {
    Ok(step(alloc, at, edition.graph(), thread, label)?)
}

fn stepped_out(
    alloc: Global,
    edition: &Edition,
    at: &Position,
    thread: u32,
) -> Result<Position, Unanswered> {
    Ok(out(alloc, at, edition.graph(), thread)?)
}

fn advanced(
    alloc: Global,
    edition: &Edition,
    at: &Position,
    thread: u32,
) -> Result<Position, Unanswered> {
    let program = program_of(edition);
    Ok(advance(alloc, at, edition.graph(), program, thread)?)
}

fn entered(
    alloc: Global,
    edition: &Edition,
    at: &Position,
    thread: u32,
) -> Result<Position, Unanswered> {
    let program = program_of(edition);
    Ok(enter(alloc, at, edition.graph(), program, thread)?)
}

//! What is asked of the position to which a walk leads in the edition of a text.
ghost use Rattle.std.specs.Prelude.{◌≡◌, is_some};
ghost use Rattle.abs_stepper.specs.Positions.{stack_of};

use crate::begin::{edition_of, program_of};
use crate::shown::{Shown, are_shown, top_of};
use crate::unanswered::Unanswered;
use crate::walk::{Walk, position_of};
use abs_stepper::{Position, Thread, offered};
use arg_graph::{Label, Vertex, label_text};
use constraint_sys::{Unknown, Value};
use edition_core::Edition;
use gob_tree::{Memory, Program};
use state_dom::State;
use std::alloc::Global;

/// Whether the threads show just this, in this order.
pub fn shows(
    alloc: Global,
    text: &[u8],
    walk: &Walk<'_>,
    wanted: &[Shown],
) -> Result<bool, Unanswered> {
    let edition = opened(alloc, text)?;
    let at = position_of(alloc, &edition, walk)?;
    Ok(are_shown(&edition, &at, wanted))
}

/// Why the walk is not made; `None` where it is.
pub fn refusal(alloc: Global, text: &[u8], walk: &Walk<'_>) -> Option<Unanswered> {
    match opened(alloc, text) {
        Ok(edition) => position_of(alloc, &edition, walk).err(),
        Err(why) => Some(why),
    }
}

/// Whether a copy of the position has the same threads, with the same stacks.
pub fn copies(alloc: Global, text: &[u8], walk: &Walk<'_>) -> Result<bool, Unanswered> {
    let edition = opened(alloc, text)?;
    let at = position_of(alloc, &edition, walk)?;
    let copy = at.copy(alloc)?;
    Ok(are_same(at.threads(), copy.threads()))
}

fn are_same(threads: &[Thread], others: &[Thread]) -> bool {
    if threads.len() != others.len() {
        return false;
    }
    for (i, thread) in threads.iter().enumerate() {
        let other = &others[i];
        if thread.id != other.id || thread.stack.as_slice() != other.stack.as_slice() {
            return false;
        }
    }
    true
}

/// Whether just these labels are offered to the walk's thread, in this order, with these texts.
pub fn offers(
    alloc: Global,
    text: &[u8],
    walk: &Walk<'_>,
    wanted: &[(Label, &[u8])],
) -> Result<bool, Unanswered> {
    let edition = opened(alloc, text)?;
    let at = position_of(alloc, &edition, walk)?;
    let Some(top) = top_in(at.threads(), walk.thread) else {
        return Err(Unanswered::UnknownThread);
    };
    let labels = labels_of(alloc, &edition, &at, walk.thread)?;
    if labels.len() != wanted.len() {
        return Ok(false);
    }
    for (i, label) in labels.as_slice().iter().enumerate() {
        let (named, words) = wanted[i];
        if *label != named || !is_text(alloc, program_of(&edition), top.func, named, words)? {
            return Ok(false);
        }
    }
    Ok(true)
}

/// The labels that are offered to a thread.
fn labels_of(
    alloc: Global,
    edition: &Edition,
    at: &Position,
    thread: u32,
) -> Result<Vec<Label>, Unanswered> {
    if has_thread(at.threads(), thread) {
        Ok(offered(alloc, edition.graph(), at, thread)?)
    } else {
        Err(Unanswered::UnknownThread)
    }
}

fn has_thread(threads: &[Thread], id: u32) -> bool
    ensures { result ≡ is_some (stack_of threads.now id) }
{
    for thread in threads {
        if thread.id == id {
            return true;
        }
    }
    false
}

fn is_text(
    alloc: Global,
    program: &Program,
    func: u16,
    label: Label,
    wanted: &[u8],
) -> Result<bool, Memory> {
    let shown = label_text(alloc, program, func, label)?;
    Ok(shown.as_bytes() == wanted)
}

/// Whether a slot has an interval with these ends where the walk's thread stands.
pub fn holds(
    alloc: Global,
    text: &[u8],
    walk: &Walk<'_>,
    slot: u16,
    ends: (i64, i64),
) -> Result<bool, Unanswered> {
    let edition = opened(alloc, text)?;
    let at = position_of(alloc, &edition, walk)?;
    match top_in(at.threads(), walk.thread) {
        Some(top) => Ok(ends_at(&edition, top, slot) == Some(ends)),
        None => Err(Unanswered::UnknownThread),
    }
}

/// The vertex at which a thread with an id stands.
fn top_in(threads: &[Thread], id: u32) -> Option<Vertex> {
    for thread in threads {
        if thread.id == id {
            return top_of(thread);
        }
    }
    None
}

/// The ends of a slot's interval at a vertex.
fn ends_at(edition: &Edition, v: Vertex, slot: u16) -> Option<(i64, i64)> {
    let point = Unknown::Point {
        func: v.func,
        key: v.key,
        node: v.node,
    };
    match edition.table().get(&point) {
        Some(Value::State(state)) => ends_in(state, slot),
        _ => None,
    }
}

fn ends_in(state: &State, slot: u16) -> Option<(i64, i64)> {
    if state.is_bottom() || slot as usize >= state.room() {
        return None;
    }
    let interval = state.slot(slot);
    Some((interval.lo(), interval.hi()))
}

/// The edition of a text.
pub(crate) fn opened(alloc: Global, text: &[u8]) -> Result<Edition, Unanswered> {
    match edition_of(alloc, text) {
        Some(edition) => Ok(edition),
        None => Err(Unanswered::NoEdition),
    }
}

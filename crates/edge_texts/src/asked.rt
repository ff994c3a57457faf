use crate::seen::{Held, Seen, held, held_in, key};
use constraint_sys::{ArgKey, Outcome, Unknown};
use lockset_dom::Locks;
use solved_texts::{Unsolved, given, solved};
use std::alloc::Global;

/// What an edge of a function gives in the context of `main` and threads; `None` where the function or
/// the edge isn't there.
fn outcome(
    alloc: Global,
    text: &[u8],
    func: u16,
    edge: usize,
) -> Result<Option<Outcome>, Unsolved> {
    let run = solved(alloc, text)?;
    let empty = key(ArgKey::Absent, Locks::empty());
    match given(
        alloc,
        run.source().program(),
        run.table(),
        func,
        &empty,
        edge,
    ) {
        Ok(found) => Ok(found),
        Err(_) => Err(Unsolved::Memory),
    }
}

/// What a slot holds after an edge, and how many effects and reads the edge has; `None` where the
/// function or the edge isn't there.
pub fn after(
    alloc: Global,
    text: &[u8],
    func: u16,
    edge: usize,
    slot: u16,
) -> Result<Option<Seen>, Unsolved> {
    match outcome(alloc, text, func, edge)? {
        Some(o) => Ok(Some((held(&o.value, slot), o.effects.len(), o.reads.len()))),
        None => Ok(None),
    }
}

/// The target of an edge's first effect, with the interval that it brings there: a slot's with the
/// mutexes where it is a state, a global's with none. `None` where there is no effect.
pub fn effect(
    alloc: Global,
    text: &[u8],
    func: u16,
    edge: usize,
    slot: u16,
) -> Result<Option<(Unknown, Held)>, Unsolved> {
    let Some(o) = outcome(alloc, text, func, edge)? else {
        return Ok(None);
    };
    match o.effects.as_slice().first() {
        Some(e) => Ok(Some((e.target, held_in(&e.value, slot)))),
        None => Ok(None),
    }
}

/// The first unknown that an edge reads beside its start; `None` where there is none.
pub fn read(
    alloc: Global,
    text: &[u8],
    func: u16,
    edge: usize,
) -> Result<Option<Unknown>, Unsolved> {
    match outcome(alloc, text, func, edge)? {
        Some(o) => Ok(o.reads.as_slice().first().copied()),
        None => Ok(None),
    }
}

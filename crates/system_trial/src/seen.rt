//! What an edge gives, in numbers.
use constraint_sys::{ArgKey, Key, Outcome};
use gob_tree::Memory;
use lockset_dom::Locks;
use solved_texts::given;
use state_dom::State;
use std::alloc::Global;
use td_solver::Run;

/// The ends of an interval.
pub(crate) type Ends = (i64, i64);

/// A slot's interval with the mutexes that are held, or None at Bottom.
pub(crate) type Held = Option<(Ends, Locks)>;

pub(crate) fn key(a: ArgKey, locks: Locks) -> Key {
    Key {
        a,
        b: ArgKey::Absent,
        locks,
    }
}

pub(crate) fn empty_key() -> Key {
    key(ArgKey::Absent, Locks::empty())
}

pub(crate) fn held(state: &State, slot: u16) -> Held {
    if state.is_bottom() || slot as usize >= state.room() {
        return None;
    }
    let v = state.slot(slot);
    Some(((v.lo(), v.hi()), state.locks()))
}

/// What an edge of a function gives in the empty context.
pub(crate) fn outcome(
    alloc: Global,
    run: &Run,
    func: u16,
    edge: usize,
) -> Result<Option<Outcome>, Memory> {
    let program = run.source().program();
    given(alloc, program, run.table(), func, &empty_key(), edge)
}

/// The state that an edge gives, and how many effects and reads it has.
pub(crate) fn after(
    alloc: Global,
    run: &Run,
    func: u16,
    edge: usize,
    slot: u16,
) -> Result<Option<(Held, usize, usize)>, Memory> {
    match outcome(alloc, run, func, edge)? {
        Some(o) => {
            let state = held(&o.value, slot);
            Ok(Some((state, o.effects.len(), o.reads.len())))
        }
        None => Ok(None),
    }
}

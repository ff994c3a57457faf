use constraint_sys::{ArgKey, Key, Value};
use lockset_dom::Locks;
use state_dom::State;

/// The ends of an interval.
pub type Ends = (i64, i64);

/// A slot's interval with the mutexes that are held, or None at Bottom and where there is no such slot.
pub type Held = Option<(Ends, Locks)>;

/// What a slot holds after an edge, with the numbers of the edge's effects and reads.
pub type Seen = (Held, usize, usize);

/// A context with what is known of the first argument, where there is no second one.
pub fn key(a: ArgKey, locks: Locks) -> Key {
    Key {
        a,
        b: ArgKey::Absent,
        locks,
    }
}

/// Such an interval and mutexes, without effects and reads.
pub fn alone(v: Ends, locks: Locks) -> Option<Seen> {
    Some((Some((v, locks)), 0, 0))
}

pub(crate) fn held(state: &State, slot: u16) -> Held {
    if state.is_bottom() || slot as usize >= state.room() {
        return None;
    }
    let v = state.slot(slot);
    Some(((v.lo(), v.hi()), state.locks()))
}

pub(crate) fn held_in(value: &Value, slot: u16) -> Held {
    match value {
        Value::State(state) => held(state, slot),
        Value::Number(v) => Some(((v.lo(), v.hi()), Locks::empty())),
    }
}

//! The contexts of functions.
ghost use Rattle.std.specs.Prelude.{◌≡◌, ◌<◌, Some, true};
ghost use Rattle.state_dom.specs.StateValue.{is_reached, room_of, slots_of, locks_of};
ghost use Rattle.constraint_sys.specs.Table.{empty_key};
ghost use Rattle.constraint_sys.specs.declared.unknown.Unknown.TheVariants.{Point};
ghost use Rattle.constraint_sys.specs.Transfer.{arg_key, is_number, key_of, param_key};

use crate::unknown::{ArgKey, Key, Unknown};
use interval_dom::Interval;
use lockset_dom::Locks;
use state_dom::State;

/// The context of `main` and of a thread: no argument is known and no mutex held.
pub(crate) fn empty_key() -> Key
    ensures { result ≡ empty_key }
{
    Key {
        a: ArgKey::Absent,
        b: ArgKey::Absent,
        locks: Locks::empty(),
    }
}

/// A node of a function in a context.
pub(crate) fn point(func: u16, key: &Key, node: u16) -> Unknown
    ensures { result ≡ Point func key.now node }
{
    Unknown::Point {
        func,
        key: *key,
        node,
    }
}

/// The context of a call that begins with this frame.
pub(crate) fn key_of(params: u16, frame: &State) -> Key
    requires reached { is_reached frame.now ≡ true }
    requires room { params < room_of frame.now }
    ensures { result ≡ key_of params (slots_of frame.now) (locks_of frame.now) }
{
    Key {
        a: param_key(params, frame, 0),
        b: param_key(params, frame, 1),
        locks: frame.locks(),
    }
}

fn param_key(params: u16, frame: &State, i: u16) -> ArgKey
    requires reached { is_reached frame.now ≡ true }
    requires room { params < room_of frame.now }
    ensures { result ≡ param_key params (slots_of frame.now) i }
{
    if i < params {
        arg_key(frame.slot(i + 1))
    } else {
        ArgKey::Absent
    }
}

fn arg_key(v: Interval) -> ArgKey
    ensures { result ≡ arg_key (Some v) }
{
    if is_number(v, 0) {
        ArgKey::Zero
    } else if is_number(v, 1) {
        ArgKey::One
    } else {
        ArgKey::Any
    }
}

fn is_number(v: Interval, n: i64) -> bool
    ensures { result ≡ is_number n v }
{
    v.lo() == n && v.hi() == n
}

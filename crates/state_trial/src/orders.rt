ghost use Rattle.std.specs.Prelude.{◌≡◌, ◌<◌, IfOk};
ghost use Rattle.state_dom.specs.StateValue.{room_of};

use crate::build_up::{Ends, both, with};
use gob_tree::Memory;
use lockset_dom::Locks;
use state_dom::State;
use std::alloc::Global;
use std::test::Fail;

/// A state that holds these mutexes, with an interval of x.
fn held(alloc: Global, x: Ends, locks: Locks) -> Result<State, Memory>
    ensures { IfOk result (λ s. room_of s ≡ 2) }
{
    let mut state = with(alloc, x, (0, 10))?;
    state.set_locks(locks);
    Ok(state)
}

fn mutexes(a: u16, b: u16) -> Locks
    requires first { a < 8 }
    requires second { b < 8 }
{
    Locks::empty().insert(a).insert(b)
}

fn is_below(alloc: Global, x: Ends, y: Ends) -> Result<bool, Memory> {
    let lower = with(alloc, x, (0, 10))?;
    let upper = with(alloc, y, (0, 10))?;
    Ok(lower.le(&upper))
}

#[test]
fn wider_intervals_bound_more(rt: HostRuntime) -> Result<(), Fail> {
    for (x, y, wanted) in [
        ((1, 2), (0, 9), true),
        ((1, 2), (1, 2), true),
        ((1, 2), (0, 1), false),
        ((1, 2), (2, 9), false),
    ] {
        let found = is_below(rt.alloc(), x, y)?;
        assert!(rt; found == wanted);
    }
    Ok(())
}

#[test]
fn fewer_mutexes_bound_more(rt: HostRuntime) -> Result<(), Fail> {
    let one = held(rt.alloc(), (0, 10), mutexes(1, 1))?;
    let two = held(rt.alloc(), (0, 10), mutexes(1, 2))?;
    assert!(rt; two.le(&one));
    assert!(rt; !one.le(&two));
    Ok(())
}

#[test]
fn bottom_is_below_all(rt: HostRuntime) -> Result<(), Fail> {
    let bottom = State::bottom(rt.alloc(), 2)?;
    let state = with(rt.alloc(), (0, 10), (0, 10))?;
    assert!(rt; bottom.is_bottom());
    assert!(rt; bottom.room() == 2);
    assert!(rt; bottom.le(&state));
    assert!(rt; !state.le(&bottom));
    Ok(())
}

#[test]
fn a_join_has_both(rt: HostRuntime) -> Result<(), Fail> {
    let left = held(rt.alloc(), (1, 2), mutexes(1, 2))?;
    let mut joined = left.copy(rt.alloc())?;
    let right = held(rt.alloc(), (5, 9), mutexes(2, 3))?;
    joined.join_into(&right);
    assert!(rt; both(&joined) == Some(((1, 9), (0, 10))));
    assert!(rt; !joined.is_bottom() && joined.locks() == mutexes(2, 2));
    assert!(rt; both(&left) == Some(((1, 2), (0, 10))));
    Ok(())
}

#[test]
fn bottom_joined_with_a_state_is_that_state(rt: HostRuntime) -> Result<(), Fail> {
    let state = held(rt.alloc(), (1, 2), mutexes(1, 2))?;
    let mut joined = State::bottom(rt.alloc(), 2)?;
    joined.join_into(&state);
    assert!(rt; joined.le(&state));
    assert!(rt; state.le(&joined));
    Ok(())
}

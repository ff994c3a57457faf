ghost use Rattle.std.specs.Prelude.{◌≡◌, IfOk};
ghost use Rattle.state_dom.specs.StateValue.{room_of};

use crate::build_up::{Ends, ends_of, interval};
use crate::programs::program_with;
use gob_tree::{Memory, Width};
use lockset_dom::Locks;
use state_dom::{State, Thresholds, assign};
use std::alloc::Global;
use std::test::Fail;

fn marks(alloc: Global, numbers: &[i64], width: Width, initial: i64) -> Result<Thresholds, Memory> {
    let program = program_with(alloc, numbers, width, initial)?;
    Thresholds::of(alloc, &program)
}

// 10 and 11 share two neighbours, and the greatest int has one; each stands once
#[test]
fn thresholds_are_a_set(rt: HostRuntime) -> Result<(), Fail> {
    let found = marks(rt.alloc(), [11, 10].as_slice(), Width::W32, 2147483647)?;
    let wanted = [-2147483648, 9, 10, 11, 12, 2147483646, 2147483647];
    assert!(rt; found.as_slice() == wanted.as_slice());
    Ok(())
}

const OF_A_LONG: [i64; 9] = [
    i64::MIN,
    -2147483648,
    -1,
    0,
    1,
    2147483646,
    2147483647,
    2147483648,
    i64::MAX,
];

#[test]
fn longs_have_their_ends(rt: HostRuntime) -> Result<(), Fail> {
    let found = marks(rt.alloc(), [2147483647].as_slice(), Width::W64, 0)?;
    assert!(rt; found.as_slice() == OF_A_LONG.as_slice());
    Ok(())
}

/// A state of one slot with this interval, and these mutexes held.
fn state_of(alloc: Global, x: Ends, locks: Locks) -> Result<State, Memory>
    ensures { IfOk result (λ s. room_of s ≡ 1) }
{
    let mut state = State::start(alloc, 1)?;
    assign(&mut state, 0, interval(x));
    state.set_locks(locks);
    Ok(state)
}

/// The interval of the slot, or None at Bottom.
fn interval_of(state: &State) -> Option<Ends>
    requires { room_of state.now ≡ 1 }
{
    if state.is_bottom() {
        return None;
    }
    Some(ends_of(state.slot(0)))
}

/// Whether a state rises by another one, and its interval then; the thresholds are those of 10 and 20.
fn risen(alloc: Global, old: Ends, new: Ends) -> Result<(bool, Option<Ends>), Memory> {
    let marks = marks(alloc, [10].as_slice(), Width::W32, 20)?;
    let mut state = state_of(alloc, old, Locks::empty())?;
    let new = state_of(alloc, new, Locks::empty())?;
    let rose = state.up(&new, &marks);
    Ok((rose, interval_of(&state)))
}

#[test]
fn moved_ends_go_to_thresholds(rt: HostRuntime) -> Result<(), Fail> {
    for (old, new, rose, wanted) in [
        ((0, 0), (0, 1), true, (0, 9)),
        ((0, 9), (0, 1), false, (0, 9)),
        ((0, 9), (-1, 5), true, (-2147483648, 9)),
        ((0, 10), (2, 12), true, (0, 19)),
    ] {
        let found = risen(rt.alloc(), old, new)?;
        assert!(rt; found == (rose, Some(wanted)));
    }
    Ok(())
}

#[test]
fn mutexes_that_both_hold_stay(rt: HostRuntime) -> Result<(), Fail> {
    let marks = marks(rt.alloc(), [10].as_slice(), Width::W32, 20)?;
    let mut state = state_of(rt.alloc(), (0, 0), Locks::empty().insert(1).insert(2))?;
    let new = state_of(rt.alloc(), (0, 0), Locks::empty().insert(2))?;
    assert!(rt; state.up(&new, &marks));
    assert!(rt; !state.is_bottom() && state.locks() == Locks::empty().insert(2));
    Ok(())
}

#[test]
fn bottom_rises_to_the_new_state(rt: HostRuntime) -> Result<(), Fail> {
    let marks = marks(rt.alloc(), [10].as_slice(), Width::W32, 20)?;
    let mut state = State::bottom(rt.alloc(), 1)?;
    let bottom = State::bottom(rt.alloc(), 1)?;
    let new = state_of(rt.alloc(), (0, 1), Locks::empty())?;
    assert!(rt; !state.up(&bottom, &marks));
    assert!(rt; state.up(&new, &marks));
    assert!(rt; interval_of(&state) == Some((0, 1)));
    Ok(())
}

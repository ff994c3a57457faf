ghost use Rattle.std.specs.Prelude.{◌≡◌, ◌≢◌, ◌↔◌, ◌<◌, ◌≤◌, IfOk, IsTrue, IsFalse, Some, length, slice_get, slice_set, true, false, IsSorted, pos};
ghost use Rattle.std.specs.Ordering.{int_cmp};
ghost use Rattle.interval_dom.specs.Bounds.{hull};
ghost use Rattle.interval_dom.specs.Marks.{widened};
ghost use Rattle.state_dom.specs.StateValue.{Bottom, Reached, room_of, slots_of, locks_of, is_reached, start_of, CoversState, join_of, raised_by, CoversEach, on_each};

use crate::intervals::Intervals;
use crate::thresholds::Thresholds;
use gob_tree::Memory;
use interval_dom::Interval;
use lockset_dom::Locks;
use std::alloc::Global;
use std::marker::Model;

/// What is known at a point: Bottom, where no run comes, or an interval for each slot and the
/// mutexes that are surely held. A Bottom keeps the room of its slots, so that raising it takes no
/// memory.
#[derive(Debug, Drop)]
pub struct State {
    reached: bool,
    slots: Intervals,
    locks: Locks,
}

impl Model for State {
    ghost use Rattle.state_dom.specs.StateValue.{StateValue, state_value};

    ghost Value = { StateValue };

    ghost view = { λ s. state_value s.reached s.slots s.locks };
}

impl State {
    /// The state of a point that no run reaches, with room for so many slots; `Memory` is want of
    /// memory.
    pub fn bottom(alloc: Global, slots: u16) -> Result<State, Memory>
        ensures { IfOk result (λ s. s ≡ Bottom slots) }
    {
        let slots = Intervals::zeros(alloc, slots)?;
        Ok(State {
            reached: false,
            slots,
            locks: Locks::empty(),
        })
    }

    /// The state at a start: each slot `[0,0]`, and no mutex held; `Memory` is want of memory.
    pub fn start(alloc: Global, slots: u16) -> Result<State, Memory>
        ensures { IfOk result (λ s. s ≡ start_of slots) }
    {
        let slots = Intervals::zeros(alloc, slots)?;
        Ok(State {
            reached: true,
            slots,
            locks: Locks::empty(),
        })
    }

    /// Whether no run reaches the point.
    pub fn is_bottom(&self) -> bool
        ensures { IsTrue result ↔ (is_reached self.now ≡ false) }
    {
        !self.reached
    }

    /// The number of slots.
    pub fn room(&self) -> usize
        ensures { result ≡ room_of self.now }
    {
        self.slots.len()
    }

    /// The interval of a slot.
    pub fn slot(&self, i: u16) -> Interval
        requires { i < length (slots_of self.now) }
        ensures { slice_get (slots_of self.now) i ≡ Some result }
    {
        self.slots.get(i as usize)
    }

    /// The mutexes that are surely held, of a state that isn't Bottom.
    pub fn locks(&self) -> Locks
        requires { is_reached self.now ≡ true }
        ensures { result ≡ locks_of self.now }
    {
        self.locks
    }

    /// An equal state; `Memory` is want of memory.
    pub fn copy(&self, alloc: Global) -> Result<State, Memory>
        ensures { IfOk result (λ s. s ≡ self.now) }
    {
        let slots = self.slots.copy(alloc)?;
        Ok(State {
            reached: self.reached,
            slots,
            locks: self.locks,
        })
    }

    /// Whether the other state bounds this one.
    pub fn le(&self, other: &State) -> bool
        requires { room_of self.now ≡ room_of other.now }
        ensures { IsTrue result ↔ CoversState other.now self.now }
    {
        if !self.reached {
            return true;
        }
        if !other.reached {
            return false;
        }
        self.locks.le(other.locks) && self.slots.le(&other.slots)
    }

    /// Raises this state to the least one that bounds it and the other; takes no memory.
    pub fn join_into(&mut self, other: &State)
        requires { room_of self.old ≡ room_of other.now }
        ensures value { self.new ≡ join_of self.old other.now }
        ensures room { room_of self.new ≡ room_of self.old }
        ensures this { CoversState self.new self.old }
        ensures other { CoversState self.new other.now }
    {
        if !other.reached {
            return;
        }
        if self.reached {
            self.slots.join_into(&other.slots);
            self.locks = self.locks.meet(other.locks);
        } else {
            self.become_reached(other);
        }
    }

    /// Raises this state by the other, where an end of an interval that moves goes on to the next
    /// of the thresholds; answers whether the state rose. Takes no memory.
    pub fn up(&mut self, new: &State, marks: &Thresholds) -> bool
        requires { room_of self.old ≡ room_of new.now }
        ensures value { self.new ≡ raised_by marks.now self.old new.now }
        ensures rose { IsTrue result ↔ ¬ CoversState self.old new.now }
        ensures changed { IsTrue result ↔ (self.new ≢ self.old) }
        ensures room { room_of self.new ≡ room_of self.old }
        ensures old { CoversState self.new self.old }
        ensures new { CoversState self.new new.now }
    {
        if new.le(self) {
            return false;
        }
        if self.reached {
            self.slots.widen_into(&new.slots, marks.as_slice());
            self.locks = self.locks.meet(new.locks);
        } else {
            self.become_reached(new);
        }
        true
    }

    /// Gives a state that isn't Bottom other locks.
    pub fn set_locks(&mut self, locks: Locks)
        requires { is_reached self.old ≡ true }
        ensures { self.new ≡ Reached (slots_of self.old) locks }
    {
        self.locks = locks;
    }

    pub(crate) fn set_slot(&mut self, i: u16, v: Interval)
        requires reached { is_reached self.old ≡ true }
        requires in_range { i < room_of self.old }
        ensures { self.new ≡ Reached (slice_set (slots_of self.old) i v) (locks_of self.old) }
    {
        self.slots.set(i as usize, v);
    }

    /// Gives this state the other's value.
    pub(crate) fn set_to(&mut self, other: &State)
        requires { room_of self.old ≡ room_of other.now }
        ensures { self.new ≡ other.now }
    {
        if other.reached {
            self.become_reached(other);
        } else {
            self.become_bottom();
        }
    }

    pub(crate) fn become_bottom(&mut self)
        ensures { self.new ≡ Bottom (room_of self.old) }
    {
        self.reached = false;
    }

    fn become_reached(&mut self, other: &State)
        requires room { room_of self.old ≡ room_of other.now }
        requires reached { is_reached other.now ≡ true }
        ensures { self.new ≡ other.now }
    {
        self.slots.set_to(&other.slots);
        self.locks = other.locks;
        self.reached = true;
    }
}

ghost use Rattle.std.specs.Prelude.{◌≡◌, IfOk, OnOk, OnErr, Some, slice_set};
ghost use Rattle.c_meaning.specs.Demand.{with_slot};
ghost use Rattle.c_meaning.specs.Tree.{frame_after, rest_of, func_slots, caller_after};
ghost use Rattle.tree_run.specs.Deeds.{after_way};
ghost use Rattle.tree_run.specs.Framing.{shown};
ghost use Rattle.tree_run.specs.Stack.{IsReady};

use crate::deed::Way;
use crate::frame::{Frame, slots_of};
use crate::todo::{Next, settle};
use crate::value::{converted, width_at};
use crate::way::{go, take_front};
use gob_tree::{Memory, Unit};
use std::alloc::Global;

/// Writes a number where there is a place for it.
fn put(values: &mut Vec<i64>, x: u16, number: i64)
    ensures { values.new.items ≡ slice_set values.old.items x number }
{
    let place = x as usize;
    if place < values.len() {
        values[place] = number;
    }
}

impl<'u> Frame<'u> {
    /// Unrolls what stands in front, and gives it. The frame shows the same before and after; after
    /// want of memory too.
    pub(crate) fn settle(&mut self) -> Result<Option<Next<'u>>, Memory>
        ensures same { shown self.new ≡ shown self.old }
        ensures ready { IfOk result (IsReady self.new.todo.items) }
    {
        settle(&mut self.todo)
    }

    /// What stands in front is done, and what comes behind it comes next.
    pub(crate) fn pass(&mut self, next: Next<'u>)
        requires { IsReady self.old.todo.items (Some next) }
        ensures { shown self.new ≡ frame_after (shown self.old) (rest_of (shown self.old).todo) }
    {
        take_front(&mut self.todo, next);
        self.ins.clear();
    }

    /// What stands in front is done, and what is left goes this way; after want of memory the frame
    /// is as before.
    pub(crate) fn finish(&mut self, next: Next<'u>, way: Way<'u>) -> Result<(), Memory>
        requires { IsReady self.old.todo.items (Some next) }
        ensures ok { OnOk result (shown self.new ≡ frame_after (shown self.old) (after_way way.entry (shown self.old).todo)) }
        ensures err { OnErr result (shown self.new ≡ shown self.old) }
    {
        go(&mut self.todo, next, way)?;
        self.ins.clear();
        Ok(())
    }

    /// A number is stored in a slot, at the slot's width, and what stands in front is done.
    pub(crate) fn store(&mut self, unit: &Unit, next: Next<'u>, x: u16, number: i64)
        requires { IsReady self.old.todo.items (Some next) }
        ensures { shown self.new ≡ frame_after (record (shown self.old) { slots = with_slot (func_slots unit.now self.old.func) x number (shown self.old).slots }) (rest_of (shown self.old).todo) }
    {
        let width = width_at(slots_of(unit, self.func), x);
        put(&mut self.slots, x, converted(width, number as i128));
        self.pass(next);
    }

    /// A thread variable gets a thread, and what stands in front is done.
    pub(crate) fn keep(&mut self, next: Next<'u>, var: u16, thread: u32)
        requires { IsReady self.old.todo.items (Some next) }
        ensures { shown self.new ≡ frame_after (record (shown self.old) { vars = slice_set (shown self.old).vars var (Some thread) }) (rest_of (shown self.old).todo) }
    {
        let place = var as usize;
        if place < self.vars.len() {
            self.vars[place] = Some(thread);
        }
        self.pass(next);
    }

    /// The frame goes on after a call in it returned this number; after want of memory it is as
    /// before.
    pub(crate) fn resume(&mut self, alloc: Global, unit: &Unit, number: i64) -> Result<(), Memory>
        ensures ok { OnOk result (shown self.new ≡ caller_after unit.now (shown self.old) number) }
        ensures err { OnErr result (shown self.new ≡ shown self.old) }
    {
        let next = settle(&mut self.todo)?;
        match self.demand(alloc, unit, next)? {
            Err(_) => self.get_input(number)?,
            Ok(_) => match next {
                None => self.ins.clear(),
                Some(next) => self.pass(next),
            },
        }
        Ok(())
    }
}

ghost use Rattle.std.specs.Prelude.{◌≡◌, ◌∷◌, ◌<◌, List, length, IfOk, OnOk, OnErr, Some, slice_set};
ghost use Rattle.c_meaning.specs.Demand.{with_slot};
ghost use Rattle.c_meaning.specs.Tree as Tree;
ghost use Rattle.c_meaning.specs.Tree.{frame_after, rest_of, func_slots, with_input, caller_after, frames_after_return};
ghost use Rattle.tree_run.specs.Deeds.{after_way, act_frames, stack_of, IsTopReady};
ghost use Rattle.tree_run.specs.Framing.{shown};

use crate::deed::{Act, Way};
use crate::frame::Frame;
use crate::todo::Next;
use gob_tree::{Memory, Unit};
use std::alloc::Global;

/// Unrolls what stands in front in the topmost frame, and gives it. The frames show the same before
/// and after; after want of memory too.
pub(crate) fn settle_top<'u>(frames: &mut Vec<Frame<'u>>) -> Result<Option<Next<'u>>, Memory>
    requires { 0 < length frames.old.items }
    ensures same { stack_of frames.new.items ≡ stack_of frames.old.items }
    ensures ready { IfOk result (IsTopReady frames.new.items) }
{
    let top = frames.len() - 1;
    frames[top].settle()
}

/// The topmost frame gets one more input; after want of memory all is as before.
pub(crate) fn get_input<'u>(frames: &mut Vec<Frame<'u>>, number: i64) -> Result<(), Memory>
    requires { 0 < length frames.old.items }
    ensures ok { OnOk result ((frame : Tree.Frame) (below : List Tree.Frame) → stack_of frames.old.items ≡ frame ∷ below → stack_of frames.new.items ≡ with_input frame number ∷ below) }
    ensures err { OnErr result (stack_of frames.new.items ≡ stack_of frames.old.items) }
{
    let top = frames.len() - 1;
    frames[top].get_input(number)
}

/// What stands in front in the topmost frame is done, and what is left goes this way; after want of
/// memory all is as before.
pub(crate) fn finish<'u>(
    frames: &mut Vec<Frame<'u>>,
    next: Next<'u>,
    way: Way<'u>,
) -> Result<(), Memory>
    requires { IsTopReady frames.old.items (Some next) }
    ensures ok { OnOk result ((frame : Tree.Frame) (below : List Tree.Frame) → stack_of frames.old.items ≡ frame ∷ below → stack_of frames.new.items ≡ frame_after frame (after_way way.entry frame.todo) ∷ below) }
    ensures err { OnErr result (stack_of frames.new.items ≡ stack_of frames.old.items) }
{
    let top = frames.len() - 1;
    frames[top].finish(next, way)
}

/// A number is stored in a slot of the topmost frame, and what stands in front there is done.
pub(crate) fn store<'u>(
    frames: &mut Vec<Frame<'u>>,
    unit: &Unit,
    next: Next<'u>,
    x: u16,
    number: i64,
)
    requires { IsTopReady frames.old.items (Some next) }
    ensures { (frame : Tree.Frame) (below : List Tree.Frame) → stack_of frames.old.items ≡ frame ∷ below → stack_of frames.new.items ≡ frame_after (record frame { slots = with_slot (func_slots unit.now frame.func) x number frame.slots }) (rest_of frame.todo) ∷ below }
{
    let top = frames.len() - 1;
    frames[top].store(unit, next, x, number);
}

/// A thread variable of the topmost frame gets a thread, and what stands in front there is done.
pub(crate) fn keep<'u>(frames: &mut Vec<Frame<'u>>, next: Next<'u>, var: u16, thread: u32)
    requires { IsTopReady frames.old.items (Some next) }
    ensures { (frame : Tree.Frame) (below : List Tree.Frame) → stack_of frames.old.items ≡ frame ∷ below → stack_of frames.new.items ≡ frame_after (record frame { vars = slice_set frame.vars var (Some thread) }) (rest_of frame.todo) ∷ below }
{
    let top = frames.len() - 1;
    frames[top].keep(next, var, thread);
}

/// A call is entered; after want of memory all is as before.
fn enter<'u>(frames: &mut Vec<Frame<'u>>, called: Frame<'u>) -> Result<(), Memory>
    ensures ok { OnOk result (stack_of frames.new.items ≡ shown called.entry ∷ stack_of frames.old.items) }
    ensures err { OnErr result (stack_of frames.new.items ≡ stack_of frames.old.items) }
{
    frames.push(called)?;
    Ok(())
}

/// The frame below the topmost one goes on after a call in it returned this number; after want of
/// memory all is as before.
fn resume_caller<'u>(
    alloc: Global,
    unit: &Unit,
    frames: &mut Vec<Frame<'u>>,
    number: i64,
) -> Result<(), Memory>
    requires { 1 < length frames.old.items }
    ensures ok { OnOk result ((top caller : Tree.Frame) (below : List Tree.Frame) → stack_of frames.old.items ≡ top ∷ caller ∷ below → stack_of frames.new.items ≡ top ∷ caller_after unit.now caller number ∷ below) }
    ensures err { OnErr result (stack_of frames.new.items ≡ stack_of frames.old.items) }
    ensures size { length frames.new.items ≡ length frames.old.items }
{
    let place = frames.len() - 2;
    frames[place].resume(alloc, unit, number)
}

/// The topmost frame is taken away.
fn leave<'u>(frames: &mut Vec<Frame<'u>>)
    requires { 0 < length frames.old.items }
    ensures { (frame : Tree.Frame) (below : List Tree.Frame) → stack_of frames.old.items ≡ frame ∷ below → stack_of frames.new.items ≡ below }
{
    frames.pop();
}

/// The topmost frame returns a number; after want of memory all is as before.
pub(crate) fn give_back<'u>(
    alloc: Global,
    unit: &Unit,
    frames: &mut Vec<Frame<'u>>,
    number: i64,
) -> Result<(), Memory>
    requires { 0 < length frames.old.items }
    ensures ok { OnOk result ((frame : Tree.Frame) (below : List Tree.Frame) → stack_of frames.old.items ≡ frame ∷ below → stack_of frames.new.items ≡ frames_after_return unit.now below number) }
    ensures err { OnErr result (stack_of frames.new.items ≡ stack_of frames.old.items) }
{
    if frames.len() == 1 {
        leave(frames);
        return Ok(());
    }
    resume_caller(alloc, unit, frames, number)?;
    leave(frames);
    Ok(())
}

/// What an act makes of the frames of its thread, where `started` is the number of the next thread;
/// after want of memory all is as before.
pub(crate) fn perform<'u>(
    alloc: Global,
    unit: &Unit,
    frames: &mut Vec<Frame<'u>>,
    next: Next<'u>,
    act: Act<'u>,
    started: u32,
) -> Result<(), Memory>
    requires { IsTopReady frames.old.items (Some next) }
    ensures ok { OnOk result ((frame : Tree.Frame) (below : List Tree.Frame) → stack_of frames.old.items ≡ frame ∷ below → stack_of frames.new.items ≡ act_frames act.entry unit.now started frame below) }
    ensures err { OnErr result (stack_of frames.new.items ≡ stack_of frames.old.items) }
{
    match act {
        Act::Gets(number) => get_input(frames, number),
        Act::Calls(called) => enter(frames, called),
        Act::Returns(number) => give_back(alloc, unit, frames, number),
        Act::Goes(way) => finish(frames, next, way),
        Act::Stores(x, number) => {
            store(frames, unit, next, x, number);
            Ok(())
        }
        Act::Keeps(var) => {
            keep(frames, next, var, started);
            Ok(())
        }
    }
}

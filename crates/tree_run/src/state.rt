ghost use Rattle.std.specs.Prelude.{◌≡◌, ◌+◌, ◌<◌, ◌∷◌, ◌++◌, [], List, ℕ, ℤ, pos, IfOk, OnOk, OnErr, Some, None, length, map, option_map, slice_get, slice_set, slice_index_or};
ghost use Rattle.c_meaning.specs.Config.{Config, after_effect, next_thread, owner_at, thread_at};
ghost use Rattle.c_meaning.specs.Tree as Tree;
ghost use Rattle.c_meaning.specs.Tree.{frame_step, frames_after_return, first_tree};
ghost use Rattle.tree_run.specs.Framing.{shown};
ghost use Rattle.tree_run.specs.Deeds.{act_frames, deed_step, effect_beside, stack_of};
ghost use Rattle.tree_run.specs.Going.{config_of, stacks_of, stack_at, Finds, Does, Steps, IsReadyAt, site_on};
ghost use Rattle.tree_run.specs.Looking.{top_frame, depth_of, frame_at};
ghost use Rattle.tree_run.specs.Viewing.{top_seen, top_of};

use crate::deed::{Act, Deed, Effect, Here, has_ended_in, owner_of};
use crate::frame::{Frame, no_threads};
use crate::stack::{give_back, perform, settle_top};
use crate::todo::Next;
use crate::view::{FrameView, TopView, top_view};
use c_meaning::Stepped;
use gob_tree::{GlobalDecl, Memory, Unit};
use std::alloc::Global;

/// What the threads share, and the frames of each thread, the topmost last.
#[derive(Drop)]
pub(crate) struct State<'u> {
    pub globals: Vec<i64>,
    pub owners: Vec<Option<u32>>,
    pub threads: Vec<Vec<Frame<'u>>>,
}

/// Writes a number where there is a place for it.
fn put_number(globals: &mut Vec<i64>, g: u16, number: i64)
    ensures { globals.new.items ≡ slice_set globals.old.items g number }
{
    let place = g as usize;
    if place < globals.len() {
        globals[place] = number;
    }
}

/// Writes an owner where there is a place for it.
fn put_owner(owners: &mut Vec<Option<u32>>, m: u16, owner: Option<u32>)
    ensures { owners.new.items ≡ slice_set owners.old.items m owner }
{
    let place = m as usize;
    if place < owners.len() {
        owners[place] = owner;
    }
}

/// Unrolls what stands in front in the topmost frame of a thread, and gives it.
fn settle_at<'u>(
    threads: &mut Vec<Vec<Frame<'u>>>,
    place: usize,
) -> Result<Option<Next<'u>>, Memory>
    requires there { place < length threads.old.items }
    requires begun { 0 < length (stack_at threads.old.items place) }
    ensures same { stacks_of threads.new.items ≡ stacks_of threads.old.items }
    ensures size { length threads.new.items ≡ length threads.old.items }
    ensures ready { IfOk result (IsReadyAt threads.new.items place) }
{
    settle_top(&mut threads[place])
}

/// What an act makes of the threads; after want of memory all is as before.
fn perform_at<'u>(
    alloc: Global,
    unit: &Unit,
    threads: &mut Vec<Vec<Frame<'u>>>,
    place: usize,
    next: Next<'u>,
    act: Act<'u>,
    started: u32,
) -> Result<(), Memory>
    requires there { place < length threads.old.items }
    requires ready { IsReadyAt threads.old.items place (Some next) }
    ensures ok { OnOk result ((frame : Tree.Frame) (below : List Tree.Frame) → stack_at threads.old.items place ≡ frame ∷ below → stacks_of threads.new.items ≡ slice_set (stacks_of threads.old.items) place (act_frames act.entry unit.now started frame below)) }
    ensures err { OnErr result (stacks_of threads.new.items ≡ stacks_of threads.old.items) }
{
    perform(alloc, unit, &mut threads[place], next, act, started)
}

/// The topmost frame of a thread has nothing left to do, and returns 0; after want of memory all is
/// as before.
fn give_back_at<'u>(
    alloc: Global,
    unit: &Unit,
    threads: &mut Vec<Vec<Frame<'u>>>,
    place: usize,
) -> Result<(), Memory>
    requires there { place < length threads.old.items }
    requires ready { IsReadyAt threads.old.items place None }
    ensures ok { OnOk result ((frame : Tree.Frame) (below : List Tree.Frame) → stack_at threads.old.items place ≡ frame ∷ below → stacks_of threads.new.items ≡ slice_set (stacks_of threads.old.items) place (frames_after_return unit.now below (pos 0))) }
    ensures err { OnErr result (stacks_of threads.new.items ≡ stacks_of threads.old.items) }
{
    give_back(alloc, unit, &mut threads[place], 0)
}

/// A list of one frame.
fn alone<'u>(alloc: Global, frame: Frame<'u>) -> Result<Vec<Frame<'u>>, Memory>
    ensures { IfOk result (λ v. v.items ≡ frame.entry ∷ []) }
{
    let mut frames = Vec::new(alloc);
    frames.push(frame)?;
    Ok(frames)
}

/// A new thread starts, and the act that starts it is done; after want of memory all is as before.
fn start_at<'u>(
    alloc: Global,
    unit: &Unit,
    threads: &mut Vec<Vec<Frame<'u>>>,
    place: usize,
    next: Next<'u>,
    act: Act<'u>,
    frame: Frame<'u>,
    started: u32,
) -> Result<(), Memory>
    requires there { place < length threads.old.items }
    requires ready { IsReadyAt threads.old.items place (Some next) }
    ensures ok { OnOk result ((top : Tree.Frame) (below : List Tree.Frame) → stack_at threads.old.items place ≡ top ∷ below → stacks_of threads.new.items ≡ slice_set (stacks_of threads.old.items) place (act_frames act.entry unit.now started top below) ++ (shown frame.entry ∷ []) ∷ []) }
    ensures err { OnErr result (stacks_of threads.new.items ≡ stacks_of threads.old.items) }
{
    let count = threads.len();
    let frames = alone(alloc, frame)?;
    threads.push(frames)?;
    match perform_at(alloc, unit, threads, place, next, act, started) {
        Ok(()) => Ok(()),
        Err(_) => {
            threads.truncate(count);
            Err(Memory)
        }
    }
}

/// The frames at a place; none where there is no such place.
fn frames_at<'m, 'u>(threads: &'m [Vec<Frame<'u>>], place: usize) -> Option<&'m [Frame<'u>]>
    ensures { option_map (λ v. v.now) result ≡ option_map (λ v. v.items) (slice_get threads.now place) }
{
    match threads.get(place) {
        None => None,
        Some(frames) => Some(frames.as_slice()),
    }
}

/// A frame by its place; none where there is no such place.
fn view_at<'m, 'u>(frames: &'m [Frame<'u>], place: usize) -> Option<FrameView<'m, 'u>>
    ensures { result ≡ option_map shown (slice_get frames.now place) }
{
    match frames.get(place) {
        None => None,
        Some(frame) => Some(FrameView::of(frame)),
    }
}

impl<'u> State<'u> {
    /// The place of a thread that can go on, or why it can't: there is no such thread, it has
    /// ended, or thread 1 has.
    fn place_of(&self, thread: u32) -> Result<usize, Stepped>
        ensures { Finds self.now thread result }
    {
        if thread == 0 {
            return Err(Stepped::NoThread);
        }
        match self.frames_of(thread) {
            None => Err(Stepped::NoThread),
            Some(frames) => {
                if frames.is_empty() || has_ended_in(self.threads.as_slice(), 1) {
                    return Err(Stepped::Ended);
                }
                Ok(thread as usize - 1)
            }
        }
    }

    /// What the topmost frame of a thread does, where this comes next in it.
    fn decide_at(
        &self,
        alloc: Global,
        unit: &'u Unit,
        place: usize,
        thread: u32,
        input: i64,
        next: Next<'u>,
    ) -> Result<Deed<'u>, Memory>
        requires there { place < length self.now.threads.items }
        requires ready { IsReadyAt self.now.threads.items place (Some next) }
        ensures { IfOk result (λ d. (frame : Tree.Frame) (below : List Tree.Frame) → stack_at self.now.threads.items place ≡ frame ∷ below → frame_step frame.todo (site_on unit.now (config_of self.now) thread input frame below) ≡ deed_step d (site_on unit.now (config_of self.now) thread input frame below)) }
    {
        let frames = &self.threads[place];
        let here = Here {
            unit,
            globals: self.globals.as_slice(),
            owners: self.owners.as_slice(),
            threads: self.threads.as_slice(),
            thread,
            input,
            frame: &frames[frames.len() - 1],
        };
        here.decide(alloc, Some(next))
    }

    /// A thread moves; after want of memory all is as before.
    fn go(
        &mut self,
        alloc: Global,
        unit: &Unit,
        place: usize,
        next: Next<'u>,
        act: Act<'u>,
        effect: Effect<'u>,
    ) -> Result<(), Memory>
        requires there { place < length self.old.threads.items }
        requires ready { IsReadyAt self.old.threads.items place (Some next) }
        requires few { length self.old.threads.items < 4294967295 }
        ensures ok { OnOk result ((frame : Tree.Frame) (below : List Tree.Frame) → stack_at self.old.threads.items place ≡ frame ∷ below → config_of self.new ≡ after_effect (config_of self.old) (place + 1) (act_frames act.entry unit.now (next_thread (config_of self.old)) frame below) (effect_beside effect.entry)) }
        ensures err { OnErr result (config_of self.new ≡ config_of self.old) }
    {
        let started = self.threads.len() as u32 + 1;
        match effect {
            Effect::Nothing => {
                perform_at(alloc, unit, &mut self.threads, place, next, act, started)
            }
            Effect::Global(g, number) => {
                perform_at(alloc, unit, &mut self.threads, place, next, act, started)?;
                put_number(&mut self.globals, g, number);
                Ok(())
            }
            Effect::Owner(m, owner) => {
                perform_at(alloc, unit, &mut self.threads, place, next, act, started)?;
                put_owner(&mut self.owners, m, owner);
                Ok(())
            }
            Effect::Starts(frame) => {
                start_at(
                    alloc,
                    unit,
                    &mut self.threads,
                    place,
                    next,
                    act,
                    frame,
                    started,
                )
            }
        }
    }

    /// A deed is done; after want of memory all is as before.
    fn act(
        &mut self,
        alloc: Global,
        unit: &Unit,
        place: usize,
        next: Next<'u>,
        deed: Deed<'u>,
    ) -> Result<Stepped, Memory>
        requires there { place < length self.old.threads.items }
        requires ready { IsReadyAt self.old.threads.items place (Some next) }
        requires few { length self.old.threads.items < 4294967295 }
        ensures { (input : ℤ) (frame : Tree.Frame) (below : List Tree.Frame) → stack_at self.old.threads.items place ≡ frame ∷ below → Does (config_of self.old) (config_of self.new) (place + 1) (deed_step deed.entry (site_on unit.now (config_of self.old) (place + 1) input frame below)) result }
    {
        match deed {
            Deed::Waits => Ok(Stepped::Blocked),
            Deed::Fails => Ok(Stepped::Faulted),
            Deed::Moves(act, effect) => {
                self.go(alloc, unit, place, next, act, effect)?;
                Ok(Stepped::Moved)
            }
        }
    }

    /// One step of a thread that can go on; after want of memory all is as before.
    fn step_at(
        &mut self,
        alloc: Global,
        unit: &'u Unit,
        place: usize,
        thread: u32,
        input: i64,
    ) -> Result<Stepped, Memory>
        requires there { place < length self.old.threads.items }
        requires begun { 0 < length (stack_at self.old.threads.items place) }
        requires thread { thread ≡ place + 1 }
        requires few { length self.old.threads.items < 4294967295 }
        ensures { (frame : Tree.Frame) (below : List Tree.Frame) → stack_at self.old.threads.items place ≡ frame ∷ below → Does (config_of self.old) (config_of self.new) thread (frame_step frame.todo (site_on unit.now (config_of self.old) thread input frame below)) result }
    {
        match settle_at(&mut self.threads, place)? {
            None => {
                give_back_at(alloc, unit, &mut self.threads, place)?;
                Ok(Stepped::Moved)
            }
            Some(next) => {
                let deed = self.decide_at(alloc, unit, place, thread, input, next)?;
                self.act(alloc, unit, place, next, deed)
            }
        }
    }

    /// One step of a thread with an input; after want of memory all is as before.
    pub(crate) fn step(
        &mut self,
        alloc: Global,
        unit: &'u Unit,
        thread: u32,
        input: i64,
    ) -> Result<Stepped, Memory>
        requires { length self.old.threads.items < 4294967295 }
        ensures { Steps (config_of self.old) (config_of self.new) unit.now thread input result }
    {
        match self.place_of(thread) {
            Err(word) => Ok(word),
            Ok(place) => self.step_at(alloc, unit, place, thread, input),
        }
    }
}

/// The initial values of the globals.
fn first_globals(alloc: Global, decls: &[GlobalDecl]) -> Result<Vec<i64>, Memory>
    ensures { IfOk result (λ v. v.items ≡ map (λ decl. decl.initial) decls.now) }
{
    let mut globals = Vec::new(alloc);
    for decl in decls {
        globals.push(decl.initial)?;
    }
    Ok(globals)
}

impl<'u> State<'u> {
    /// The state at a program's start.
    pub(crate) fn first(alloc: Global, unit: &'u Unit) -> Result<State<'u>, Memory>
        ensures config { IfOk result (λ s. config_of s ≡ first_tree unit.now) }
        ensures threads { IfOk result (λ s. length s.threads.items ≡ 1) }
    {
        let globals = first_globals(alloc, unit.globals.as_slice())?;
        let owners = no_threads(alloc, unit.mutexes.as_slice())?;
        let frames = alone(alloc, Frame::new(alloc, unit, unit.main, &[])?)?;
        let mut threads = Vec::new(alloc);
        threads.push(frames)?;
        Ok(State {
            globals,
            owners,
            threads,
        })
    }

    /// The frames of a thread; none where it isn't there.
    fn frames_of(&self, thread: u32) -> Option<&[Frame<'u>]>
        ensures { option_map (λ v. stack_of v.now) result ≡ thread_at (config_of self.now).threads thread }
    {
        if thread == 0 {
            return None;
        }
        frames_at(self.threads.as_slice(), thread as usize - 1)
    }

    /// The topmost frame of a thread.
    pub(crate) fn top(&self, thread: u32) -> Option<TopView<'_>>
        ensures { option_map top_seen result ≡ option_map top_of (top_frame (config_of self.now) thread) }
    {
        match self.frames_of(thread) {
            None => None,
            Some(frames) => match frames.last() {
                None => None,
                Some(frame) => Some(top_view(frame)),
            },
        }
    }

    /// The number of frames of a thread.
    pub(crate) fn depth(&self, thread: u32) -> u64
        ensures { result ≡ depth_of (config_of self.now) thread }
    {
        match self.frames_of(thread) {
            None => 0,
            Some(frames) => frames.len() as u64,
        }
    }

    /// A frame of a thread, from its first.
    pub(crate) fn frame(&self, thread: u32, i: u64) -> Option<FrameView<'_, 'u>>
        ensures { result ≡ frame_at (config_of self.now) thread i }
    {
        match self.frames_of(thread) {
            None => None,
            Some(frames) => view_at(frames, i as usize),
        }
    }

    /// The owner of a mutex.
    pub(crate) fn owner(&self, mutex: u16) -> Option<u32>
        ensures { result ≡ owner_at (config_of self.now) mutex }
    {
        owner_of(self.owners.as_slice(), mutex)
    }
}

ghost use Rattle.std.specs.Prelude.{◌≡◌, ◌≢◌, ◌<◌, ◌≤◌, ◌+◌, length, IfOk, OnOk, OnErr, Option, option_map, slice_get};
ghost use Rattle.c_meaning.specs.declared.config.Stepped.TheVariants.{Moved};
ghost use Rattle.c_meaning.specs.Config.{Config, owner_at};
ghost use Rattle.c_meaning.specs.Tree as Tree;
ghost use Rattle.c_meaning.specs.Tree.{first_tree, tree_step, word_of, after_step};
ghost use Rattle.c_meaning.specs.Run.{words_of, left_by};
ghost use Rattle.tree_run.specs.Looking.{top_frame, depth_of, frame_at};
ghost use Rattle.tree_run.specs.Viewing.{top_seen, top_of};

use crate::state::State;
use crate::view::{FrameView, TopView};
use c_meaning::{Choice, Stepped};
use gob_tree::{Memory, Seq, Unit};
use std::alloc::Global;
use std::marker::Model;

/// A concrete run of a program at one moment. Contracts see it as a configuration: the values of
/// the globals, the owner of each mutex, and the frames of each thread.
///
/// A machine keeps references into the unit that it runs, and copies none of its trees.
#[derive(Drop)]
pub struct Machine<'u> {
    state: State<'u>,
}

impl<'u> Model for Machine<'u> {
    ghost use Rattle.std.specs.Prelude.{◌<◌, length};
    ghost use Rattle.c_meaning.specs.Config.{Config};
    ghost use Rattle.std.specs.Coded.{codes};
    ghost use Rattle.gob_tree.specs.contracts.expr.Expr as expr;
    ghost use Rattle.gob_tree.specs.contracts.stmt.Stmt as stmt;
    ghost use Rattle.gob_tree.specs.contracts.stmt.Placed as placed;
    ghost use Rattle.c_meaning.specs.Tree.{Frame as TreeFrame};
    ghost use Rattle.tree_run.specs.Going.{config_of};

    ghost Value = { Config TreeFrame };

    ghost coded = { Prim.hlevel (codes, expr.the_row.coded, stmt.the_row.coded, placed.the_row.coded) };

    ghost view = { λ m. config_of m.state };

    ghost invariant = { λ m. length m.state.threads.items < 4294967296 };
}

/// What became of a list of choices: a word for each, and the machine in the end.
#[derive(Drop)]
pub struct RunEnd<'u> {
    pub steps: Seq<Stepped>,
    pub last: Machine<'u>,
}

impl<'u> Machine<'u> {
    /// The machine at a program's start: the globals at their initial values, no mutex owned, and
    /// thread 1 in `main`. `Memory` is want of memory.
    pub fn new(alloc: Global, unit: &'u Unit) -> Result<Machine<'u>, Memory>
        ensures { IfOk result (λ m. m ≡ first_tree unit.now) }
    {
        Ok(Machine {
            state: State::first(alloc, unit)?,
        })
    }

    /// One step of a thread of the unit that the machine runs, by its number from 1, with a number
    /// that it gets where it asks for an arbitrary one: converted to the width that is asked
    /// (C17, 6.3.1.3). `Memory` is want of memory, and leaves the machine as it was.
    pub fn step(
        &mut self,
        alloc: Global,
        unit: &'u Unit,
        thread: u32,
        input: i64,
    ) -> Result<Stepped, Memory>
        requires few { length self.old.threads < 4294967295 }
        ensures word { IfOk result (λ w. w ≡ word_of (tree_step unit.now self.old thread input)) }
        ensures after { OnOk result (self.new ≡ after_step self.old (tree_step unit.now self.old thread input)) }
        ensures only_moves { IfOk result (λ w. w ≢ Moved → self.new ≡ self.old) }
        ensures threads { length self.new.threads ≤ length self.old.threads + 1 }
        ensures want_of_memory { OnErr result (self.new ≡ self.old) }
    {
        self.state.step(alloc, unit, thread, input)
    }

    /// The values of the globals, by their numbers.
    pub fn globals(&self) -> &[i64]
        ensures { result.now ≡ self.now.globals }
    {
        self.state.globals.as_slice()
    }

    /// The number of threads that have been started, `main`'s among them.
    pub fn thread_count(&self) -> u32
        ensures { result ≡ length self.now.threads }
    {
        self.state.threads.len() as u32
    }

    /// The topmost frame of a thread; None exactly for a thread that has ended or isn't there.
    pub fn top(&self, thread: u32) -> Option<TopView<'_>>
        ensures { option_map top_seen result ≡ option_map top_of (top_frame self.now thread) }
    {
        self.state.top(thread)
    }

    /// The thread that owns a mutex; None where none does.
    pub fn owner(&self, mutex: u16) -> Option<u32>
        ensures { result ≡ owner_at self.now mutex }
    {
        self.state.owner(mutex)
    }

    /// The number of frames of a thread; 0 exactly for one that has ended or isn't there.
    pub fn depth(&self, thread: u32) -> u64
        ensures { result ≡ depth_of self.now thread }
    {
        self.state.depth(thread)
    }

    /// A frame of a thread, from the thread's first, 0; None exactly from its depth on.
    pub fn frame(&self, thread: u32, i: u64) -> Option<FrameView<'_, 'u>>
        ensures { result ≡ frame_at self.now thread i }
    {
        self.state.frame(thread, i)
    }
}

/// What becomes of choices from a program's start, made one after another, also behind one that
/// doesn't move. `Memory` is want of memory.
pub fn run<'u>(alloc: Global, unit: &'u Unit, choices: &[Choice]) -> Result<RunEnd<'u>, Memory>
    requires { length choices.now < 4294967294 }
    ensures steps { IfOk result (λ end. end.steps ≡ words_of unit.now (first_tree unit.now) choices.now) }
    ensures last { IfOk result (λ end. end.last ≡ left_by unit.now (first_tree unit.now) choices.now) }
{
    let mut machine = Machine::new(alloc, unit)?;
    let mut steps = Seq::new(alloc);
    for choice in choices {
        let word = machine.step(alloc, unit, choice.thread, choice.input)?;
        steps.push(word)?;
    }
    Ok(RunEnd {
        steps,
        last: machine,
    })
}

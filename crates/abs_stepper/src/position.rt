ghost use Rattle.std.specs.Prelude.{◌≡◌, IfOk};
ghost use Rattle.abs_stepper.specs.Positions.{IsPosition};

use arg_graph::{Frame, Stack};
use gob_tree::{Memory, Seq};
use std::alloc::Global;
use std::marker::Model;

/// A thread of a position: its id, and its stack, of which the last frame is its top.
#[derive(Drop)]
pub struct Thread {
    pub id: u32,
    pub stack: Stack,
}

impl Thread {
    /// An equal thread; `Memory` is want of memory.
    pub fn copy(&self, alloc: Global) -> Result<Thread, Memory>
        ensures { IfOk result (λ t. t ≡ self.now) }
    {
        Ok(Thread {
            id: self.id,
            stack: self.stack.copy(alloc)?,
        })
    }
}

/// Some threads that stand at one node: their ids differ, and the vertices of their top frames share
/// one function and one node.
#[derive(Drop)]
pub struct Position {
    threads: Seq<Thread>,
}

impl Model for Position {
    ghost use Rattle.std.specs.Prelude.{List};
    ghost use Rattle.std.specs.Coded.{coded_list};
    ghost use Rattle.abs_stepper.specs.declared.position.Thread.{Thread as OneThread};

    ghost Value = { List OneThread };

    ghost use Rattle.abs_stepper.specs.Positions.{IsPosition};

    ghost view = { λ p. p.threads };

    ghost invariant = { λ p. IsPosition p.threads };
}

impl Position {
    /// A position of these threads.
    pub fn of(threads: Seq<Thread>) -> Position
        requires { IsPosition threads }
        ensures { result ≡ threads }
    {
        Position { threads }
    }

    /// The threads, in order.
    pub fn threads(&self) -> &[Thread]
        ensures value { result.now ≡ self.now }
        ensures position { IsPosition self.now }
    {
        self.threads.as_slice()
    }

    /// An equal position; `Memory` is want of memory.
    pub fn copy(&self, alloc: Global) -> Result<Position, Memory>
        ensures { IfOk result (λ p. p ≡ self.now) }
    {
        let mut threads = Seq::new(alloc);
        for thread in self.threads.as_slice() {
            threads.push(thread.copy(alloc)?)?;
        }
        Ok(Position { threads })
    }
}

//! The arguments that a program is started with.
ghost use Rattle.std.specs.Prelude.{◌≡◌, ℕ, List, Option, None, IfOk, IfSome, slice_get};
ghost use Rattle.gobpie_main.specs.Arguments.{IsWordsOf};

use gob_tree::{Memory, Text};
use std::alloc::Global;
use std::env::{Env, FillError};

/// The arguments of a program: its name, then its words. They need not be UTF-8.
pub trait Arguments {
    // The arguments, where the object tells them.
    ghost told: { Self → Option (List (List ℕ)) };

    /// The argument at a place, of which the name has 0; `None` exactly where there is none.
    /// `Memory` is want of memory.
    fn argument(&self, alloc: Global, place: usize) -> Result<Option<Text>, Memory>
        ensures { IfOk result (λ found. IfSome (told self.now)
            (λ all. found ≡ slice_get all place)) };
}

/// The words: all arguments but the program's name, which isn't read. `Memory` is want of memory.
pub fn words_of<A: Arguments>(alloc: Global, arguments: &A) -> Result<Vec<Text>, Memory>
    ensures { IfOk result (λ words. IsWordsOf (A.told arguments.now) words.items) }
{
    let mut words = Vec::new(alloc);
    for place in 1..usize::MAX {
        match arguments.argument(alloc, place)? {
            Some(word) => words.push(word)?,
            None => return Ok(words),
        }
    }
    Err(Memory)
}

/// The arguments that the system started this program with. It tells nothing of them.
#[derive(Drop)]
pub struct StdArguments<'a, R> {
    rt: &'a R,
}

impl<'a, R: Env> StdArguments<'a, R> {
    /// The system's arguments.
    pub fn new(rt: &'a R) -> StdArguments<'a, R> {
        StdArguments { rt }
    }
}

/// The room that is first taken for an argument, in bytes.
const ROOM: usize = 256;

impl<'a, R: Env> Arguments for StdArguments<'a, R> {
    ghost told = { λ _. None };

    /// It doubles the room until the argument fits, or memory is wanting.
    fn argument(&self, alloc: Global, place: usize) -> Result<Option<Text>, Memory> {
        let mut room = ROOM;
        for _ in 0..usize::BITS {
            let mut bytes = Vec::new(alloc);
            bytes.resize(room, 0u8)?;
            match self.rt.arg(place, bytes.as_mut_slice()) {
                Ok(count) => {
                    bytes.truncate(count);
                    let text = Text::of(alloc, bytes.as_slice())?;
                    return Ok(Some(text));
                }
                Err(FillError::NotPresent) => return Ok(None),
                Err(FillError::TooLong) => room = room.saturating_add(room),
            }
        }
        Err(Memory)
    }
}

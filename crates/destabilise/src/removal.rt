//! What an edit may have touched of a solved table.
ghost use Rattle.std.specs.Prelude.{◌↔◌, IfOk, IsTrue, Bool};
ghost use Rattle.gob_tree.specs.Formed.{IsFormed};
ghost use Rattle.gob_tree.specs.declared.graph.Program.{Program as TheProgram};
ghost use Rattle.constraint_sys.specs.Carry.{IsReachedFromMain, IsRemoved};
ghost use Rattle.constraint_sys.specs.PostSolution.{IsPostSolution};
ghost use Rattle.constraint_sys.specs.Sound.{IsShaped};
ghost use Rattle.constraint_sys.specs.Table.{TableValue};
ghost use Rattle.constraint_sys.specs.declared.unknown.Unknown.{Unknown as TheUnknown};
ghost use Rattle.destabilise.specs.Closed.{IsClosed};
ghost use Rattle.destabilise.specs.Linked.{AreLinksOf, IsOneOf, TakesAlong};
ghost use Rattle.destabilise.specs.Marked.{IsLeast, IsMarked};
ghost use Rattle.destabilise.specs.Matched.{IsMatching};

use crate::links::{Links, reached_with, taken_along};
use crate::marks::Marks;
use crate::matching::Matching;
use crate::seeds::seeds;
use constraint_sys::{System, Table, Unknown, main_start};
use gob_tree::{Memory, Program};
use std::alloc::Global;

/// Marks each unknown of the old program's solved table that the new program can't take over: those
/// of functions and globals that changed, of mutexes that are gone, of starts that nothing reaches,
/// and all that rests on them. The time grows with the table, its reads and its effects. `Memory` is
/// want of memory.
pub fn removed(
    alloc: Global,
    old: &Program,
    new: &Program,
    matching: &Matching,
    table: &Table,
) -> Result<Marks, Memory>
    requires formed { IsFormed old.now }
    requires matching { IsMatching old.now new.now matching.now }
    requires shaped { IsShaped old.now table.now }
    requires post_solution { IsPostSolution old.now table.now }
    ensures { (u : TheUnknown) → IfOk result (λ marks. IsMarked marks u ↔ IsRemoved old.now new.now table.now u) }
{
    let system = System::of(alloc, old)?;
    let links = Links::of(alloc, old, &system, table)?;
    let marks = removed_along(alloc, old, new, matching, table, &links)?;
    Ok(marks)
}

/// The same over the links of the table's unknowns.
pub fn removed_along(
    alloc: Global,
    old: &Program,
    _new: &Program,
    matching: &Matching,
    table: &Table,
    links: &Links,
) -> Result<Marks, Memory>
    requires formed { IsFormed old.now }
    requires matching { IsMatching old.now _new.now matching.now }
    requires shaped { IsShaped old.now table.now }
    requires post_solution { IsPostSolution old.now table.now }
    requires links { AreLinksOf old.now table.now links.now }
    ensures { (u : TheUnknown) → IfOk result (λ marks. IsMarked marks u ↔ IsRemoved old.now _new.now table.now u) }
{
    let from_main = reached_from_main(alloc, old, table, links)?;
    let seeds = seeds(alloc, matching, table, &from_main)?;
    let marks = marked_from(alloc, old, table, links, seeds.as_slice())?;
    Ok(marks)
}

/// Marks the seeds that are in the table, and all that is removed with them.
fn marked_from(
    alloc: Global,
    program: &Program,
    table: &Table,
    links: &Links,
    seeds: &[Unknown],
) -> Result<Marks, Memory>
    requires formed { IsFormed program.now }
    requires shaped { IsShaped program.now table.now }
    requires links { AreLinksOf program.now table.now links.now }
    ensures { (u : TheUnknown) → IfOk result (λ marks. IsMarked marks u ↔ IsLeast (IsOneOf table.now seeds.now) (TakesAlong program.now table.now) u) }
{
    let mut marks = Marks::none(alloc, table)?;
    let mut waiting = Vec::new(alloc);
    marks.add_each(&mut waiting, seeds)?;
    while let Some(u) = waiting.pop() {
        let next = taken_along(alloc, program, links, &u)?;
        marks.add_each(&mut waiting, next.as_slice())?;
    }
    Ok(marks)
}

fn reached_from_main(
    alloc: Global,
    program: &Program,
    table: &Table,
    links: &Links,
) -> Result<Marks, Memory>
    requires formed { IsFormed program.now }
    requires shaped { IsShaped program.now table.now }
    requires post_solution { IsPostSolution program.now table.now }
    requires links { AreLinksOf program.now table.now links.now }
    ensures { (u : TheUnknown) → IfOk result (λ marks. IsMarked marks u ↔ IsReachedFromMain program.now table.now u) }
{
    let mut marks = Marks::none(alloc, table)?;
    let mut waiting = Vec::new(alloc);
    marks.add_each(&mut waiting, &[main_start(program)])?;
    while let Some(u) = waiting.pop() {
        let next = reached_with(alloc, program, links, &u)?;
        marks.add_each(&mut waiting, next.as_slice())?;
    }
    Ok(marks)
}

/// The removed unknowns are the least set that the rules don't lead out of: each such set has them.
pub fn removed_is_least()
    ensures { (old new : TheProgram) (t : TableValue) (holds : TheUnknown → Bool) → IsClosed old new t holds → (u : TheUnknown) → IsRemoved old new t u → IsTrue (holds u) }
{}

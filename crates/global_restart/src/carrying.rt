//! Carrying a table over.
ghost use Rattle.std.specs.Prelude.{◌↔◌, ◌⊎◌, Contains, IfOk};
ghost use Rattle.gob_tree.specs.Formed.{IsFormed};
ghost use Rattle.constraint_sys.specs.Carry.{Carries, KeepsEntries, LostTarget};
ghost use Rattle.constraint_sys.specs.PostSolution.{IsPostSolution};
ghost use Rattle.constraint_sys.specs.Sound.{IsShaped};
ghost use Rattle.constraint_sys.specs.Turn.{IsAscending};
ghost use Rattle.constraint_sys.specs.declared.unknown.Unknown.{Unknown as TheUnknown};
ghost use Rattle.destabilise.specs.Linked.{AreLinksOf};
ghost use Rattle.destabilise.specs.Matched.{IsMatching};
ghost use Rattle.global_restart.specs.Keeping.{MarksRemoved};

use crate::kept::{kept_entries, lost_targets};
use crate::lacking::add_lacking;
use crate::roots::add_roots;
use constraint_sys::{Dirty, System, Table, Unknown};
use destabilise::{Links, Marks, Matching, matched, removed_along};
use gob_tree::{Memory, Program};
use std::alloc::Global;

/// What a solved table of the old program leaves for the new one: the entries that the edit can't have
/// touched, under the new numbers; then `main`'s start and the globals that are absent, as they begin;
/// then, as Bottom, the nodes that a start lacks. Dirty are those nodes, and each kept point that
/// contributed to something that isn't kept. The time grows with the table, its reads and its effects.
/// `Memory` is want of memory.
pub fn carry(
    alloc: Global,
    old: &Program,
    new: &Program,
    table: &Table,
) -> Result<(Table, Dirty), Memory>
    requires old { IsFormed old.now }
    requires new { IsFormed new.now }
    requires shaped { IsShaped old.now table.now }
    requires post_solution { IsPostSolution old.now table.now }
    ensures { IfOk result (λ both. Carries old.now new.now table.now (record { table = both.0; dirty = both.1 })) }
{
    let (mut carried, lost) = kept_with_lost(alloc, old, new, table)?;
    add_roots(alloc, new, &mut carried)?;
    let lacking = add_lacking(alloc, new, &mut carried)?;
    let dirty = dirty_with(alloc, lost.as_slice(), lacking.as_slice())?;
    Ok((carried, dirty))
}

/// The kept entries, and the kept points that contributed to something that is removed.
fn kept_with_lost(
    alloc: Global,
    old: &Program,
    new: &Program,
    table: &Table,
) -> Result<(Table, Vec<Unknown>), Memory>
    requires old { IsFormed old.now }
    requires new { IsFormed new.now }
    requires shaped { IsShaped old.now table.now }
    requires post_solution { IsPostSolution old.now table.now }
    ensures entries { IfOk result (λ both. KeepsEntries old.now new.now table.now table.now both.0) }
    ensures lost { (q : TheUnknown) → IfOk result (λ both. Contains both.1.items q ↔ LostTarget old.now new.now table.now q) }
{
    let links = links_of(alloc, old, table)?;
    let matching = matched(alloc, old, new)?;
    let both = kept_along(alloc, old, new, &matching, &links, table)?;
    Ok(both)
}

/// The same over the links of the table's unknowns, and over what of the old program is in the new one.
fn kept_along(
    alloc: Global,
    old: &Program,
    new: &Program,
    matching: &Matching,
    links: &Links,
    table: &Table,
) -> Result<(Table, Vec<Unknown>), Memory>
    requires old { IsFormed old.now }
    requires new { IsFormed new.now }
    requires shaped { IsShaped old.now table.now }
    requires post_solution { IsPostSolution old.now table.now }
    requires matching { IsMatching old.now new.now matching.now }
    requires links { AreLinksOf old.now table.now links.now }
    ensures entries { IfOk result (λ both. KeepsEntries old.now new.now table.now table.now both.0) }
    ensures lost { (q : TheUnknown) → IfOk result (λ both. Contains both.1.items q ↔ LostTarget old.now new.now table.now q) }
{
    let marks = marks_of(alloc, old, new, matching, table, links)?;
    let kept = kept_entries(alloc, old, new, matching, &marks, table)?;
    let lost = lost_targets(alloc, old, new, matching, &marks, links, table)?;
    Ok((kept, lost))
}

fn marks_of(
    alloc: Global,
    old: &Program,
    new: &Program,
    matching: &Matching,
    table: &Table,
    links: &Links,
) -> Result<Marks, Memory>
    requires old { IsFormed old.now }
    requires shaped { IsShaped old.now table.now }
    requires post_solution { IsPostSolution old.now table.now }
    requires matching { IsMatching old.now new.now matching.now }
    requires links { AreLinksOf old.now table.now links.now }
    ensures { IfOk result (λ marks. MarksRemoved old.now new.now table.now marks) }
{
    let marks = removed_along(alloc, old, new, matching, table, links)?;
    Ok(marks)
}

fn links_of(alloc: Global, program: &Program, table: &Table) -> Result<Links, Memory>
    requires formed { IsFormed program.now }
    requires shaped { IsShaped program.now table.now }
    ensures { IfOk result (λ links. AreLinksOf program.now table.now links) }
{
    let system = System::of(alloc, program)?;
    let links = Links::of(alloc, program, &system, table)?;
    Ok(links)
}

/// The points that were lost, and the nodes that were lacking.
fn dirty_with(alloc: Global, lost: &[Unknown], lacking: &[Unknown]) -> Result<Dirty, Memory>
    ensures members { (q : TheUnknown) → IfOk result (λ dirty. Contains dirty q ↔ (Contains lacking.now q ⊎ Contains lost.now q)) }
    ensures ascending { IfOk result (λ dirty. IsAscending dirty) }
{
    let mut dirty = Dirty::new(alloc);
    dirty.add(alloc, lost)?;
    dirty.add(alloc, lacking)?;
    Ok(dirty)
}

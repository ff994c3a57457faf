//! The entries that are kept, and which of their points are to be turned again.
ghost use Rattle.std.specs.Prelude.{◌≡◌, ◌↔◌, ◌⊎◌, IfOk, IsTrue, None, OnOk, Contains};
ghost use Rattle.gob_tree.specs.Formed.{IsFormed};
ghost use Rattle.constraint_sys.specs.Carry.{IsRemoved, KeepsEntries, LostTarget, Renames};
ghost use Rattle.constraint_sys.specs.Sound.{IsShaped};
ghost use Rattle.constraint_sys.specs.Table.{IsThere, value_at};
ghost use Rattle.constraint_sys.specs.declared.unknown.Unknown.{Unknown as TheUnknown};
ghost use Rattle.destabilise.specs.Linked.{AreLinksOf};
ghost use Rattle.destabilise.specs.Marked.{IsMarked};
ghost use Rattle.destabilise.specs.Matched.{IsMatching};
ghost use Rattle.global_restart.specs.Keeping.{AddsEntry, LostAt, MarksRemoved};

use crate::entries::unknown_at;
use crate::renaming::{renamed, renamed_value};
use constraint_sys::{Table, Unknown};
use destabilise::{Links, Marks, Matching};
use gob_tree::{Memory, Program};
use std::alloc::Global;

/// The entries of the old table that aren't removed, in their order, under the new numbers.
pub(crate) fn kept_entries(
    alloc: Global,
    old: &Program,
    new: &Program,
    matching: &Matching,
    marks: &Marks,
    table: &Table,
) -> Result<Table, Memory>
    requires old { IsFormed old.now }
    requires new { IsFormed new.now }
    requires matching { IsMatching old.now new.now matching.now }
    requires marks { MarksRemoved old.now new.now table.now marks.now }
    ensures { IfOk result (λ kept. KeepsEntries old.now new.now table.now table.now kept) }
{
    let mut kept = Table::new(alloc);
    for i in 0..table.len() {
        let u = unknown_at(table, i);
        add_entry(alloc, old, new, matching, marks, table, &mut kept, &u)?;
    }
    Ok(kept)
}

fn add_entry(
    alloc: Global,
    old: &Program,
    new: &Program,
    matching: &Matching,
    marks: &Marks,
    table: &Table,
    kept: &mut Table,
    u: &Unknown,
) -> Result<(), Memory>
    requires old { IsFormed old.now }
    requires new { IsFormed new.now }
    requires matching { IsMatching old.now new.now matching.now }
    requires marks { MarksRemoved old.now new.now table.now marks.now }
    requires there { IsThere table.now u.now }
    requires fresh { (w : TheUnknown) → (IsRemoved old.now new.now table.now u.now → ⊥) → Renames old.now new.now u.now w → value_at kept.old w ≡ None }
    ensures { OnOk result (AddsEntry old.now new.now table.now u.now kept.old kept.new) }
{
    let is_removed = marks.contains(u);
    if is_removed {
        return Ok(());
    }
    match table.get(u) {
        Some(v) => {
            let value = renamed_value(alloc, old, new, matching, v)?;
            kept.add(renamed(old, new, matching, u), value)?;
            Ok(())
        }
        None => Ok(()),
    }
}

/// The kept points, under their new numbers, that contributed to something that is removed.
pub(crate) fn lost_targets(
    alloc: Global,
    old: &Program,
    new: &Program,
    matching: &Matching,
    marks: &Marks,
    links: &Links,
    table: &Table,
) -> Result<Vec<Unknown>, Memory>
    requires old { IsFormed old.now }
    requires new { IsFormed new.now }
    requires matching { IsMatching old.now new.now matching.now }
    requires marks { MarksRemoved old.now new.now table.now marks.now }
    requires links { AreLinksOf old.now table.now links.now }
    ensures { (q : TheUnknown) → IfOk result (λ lost. Contains lost.items q ↔ LostTarget old.now new.now table.now q) }
{
    let mut lost = Vec::new(alloc);
    for i in 0..table.len() {
        let u = unknown_at(table, i);
        add_lost(old, new, matching, marks, links, table, &mut lost, &u)?;
    }
    Ok(lost)
}

fn add_lost(
    old: &Program,
    new: &Program,
    matching: &Matching,
    marks: &Marks,
    links: &Links,
    _table: &Table,
    lost: &mut Vec<Unknown>,
    u: &Unknown,
) -> Result<(), Memory>
    requires old { IsFormed old.now }
    requires new { IsFormed new.now }
    requires matching { IsMatching old.now new.now matching.now }
    requires marks { MarksRemoved old.now new.now _table.now marks.now }
    requires links { AreLinksOf old.now _table.now links.now }
    requires there { IsThere _table.now u.now }
    ensures { (q : TheUnknown) → OnOk result (Contains lost.new.items q ↔ (Contains lost.old.items q ⊎ LostAt old.now new.now _table.now u.now q)) }
{
    if marks.contains(u) {
        return Ok(());
    }
    if !has_marked(marks, links.targets(u)) {
        return Ok(());
    }
    lost.push(renamed(old, new, matching, u))?;
    Ok(())
}

/// Whether one of some unknowns is marked.
fn has_marked(marks: &Marks, us: &[Unknown]) -> bool
    ensures { IsTrue result ↔ ((v : TheUnknown) × Contains us.now v × IsMarked marks.now v) }
{
    for u in us {
        if marks.contains(u) {
            return true;
        }
    }
    false
}

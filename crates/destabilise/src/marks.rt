//! Marks on the unknowns of a table, and the searches that set them.
ghost use Rattle.std.specs.Prelude.{◌≡◌, ◌⊎◌, ◌↔◌, ◌+◌, true, false, IfOk, OnOk, IsTrue, Some, None, Contains, length};
ghost use Rattle.constraint_sys.specs.Table.{TableValue, IsThere};
ghost use Rattle.constraint_sys.specs.declared.unknown.Unknown.{Unknown as TheUnknown};
ghost use Rattle.destabilise.specs.Marked.{IsIn, IsMarked, mark_at, unmarked_count, with_mark};

use constraint_sys::{Table, Unknown};
use gob_tree::Memory;
use indexmap::IndexMap;
use std::alloc::Global;
use std::marker::Model;

/// A set of unknowns of a table.
#[derive(Drop)]
pub struct Marks {
    map: IndexMap<Unknown, bool>,
}

impl Model for Marks {
    ghost use Rattle.destabilise.specs.Marked.{MarkList};

    ghost Value = { MarkList };

    ghost view = { λ m. m.map.entries };
}

impl Marks {
    /// Whether the set has an unknown.
    pub fn contains(&self, u: &Unknown) -> bool
        ensures { IsTrue result ↔ IsMarked self.now u.now }
    {
        match self.map.get(u) {
            Some(mark) => *mark,
            None => false,
        }
    }

    /// The empty set, to which each unknown of the table can be added. `Memory` is want of memory.
    pub(crate) fn none(alloc: Global, table: &Table) -> Result<Marks, Memory>
        ensures there { (u : TheUnknown) → IfOk result (λ m. IsIn m u ↔ IsThere table.now u) }
        ensures none { (u : TheUnknown) → IfOk result (λ m. IsMarked m u → ⊥) }
    {
        let unknowns = table.sorted(alloc)?;
        let mut map = IndexMap::new(alloc);
        for u in unknowns.as_slice() {
            put(&mut map, u, false)?;
        }
        Ok(Marks { map })
    }

    /// Adds those of some unknowns that can be added and aren't members, to the set and to those that
    /// wait.
    pub(crate) fn add_each(
        &mut self,
        waiting: &mut Vec<Unknown>,
        us: &[Unknown],
    ) -> Result<(), Memory>
        ensures there { (v : TheUnknown) → OnOk result (IsIn self.new v ↔ IsIn self.old v) }
        ensures marked { (v : TheUnknown) → OnOk result (IsMarked self.new v ↔ (IsMarked self.old v ⊎ (Contains us.now v × IsIn self.old v))) }
        ensures waiting { (v : TheUnknown) → OnOk result (Contains waiting.new.items v ↔ (Contains waiting.old.items v ⊎ (Contains us.now v × (mark_at self.old v ≡ Some false)))) }
        ensures balance { OnOk result (length waiting.new.items + unmarked_count self.new ≡ length waiting.old.items + unmarked_count self.old) }
    {
        for u in us {
            self.add(waiting, u)?;
        }
        Ok(())
    }

    fn add(&mut self, waiting: &mut Vec<Unknown>, u: &Unknown) -> Result<(), Memory>
        ensures there { (v : TheUnknown) → OnOk result (IsIn self.new v ↔ IsIn self.old v) }
        ensures marked { (v : TheUnknown) → OnOk result (IsMarked self.new v ↔ (IsMarked self.old v ⊎ ((v ≡ u.now) × IsIn self.old v))) }
        ensures waiting { (v : TheUnknown) → OnOk result (Contains waiting.new.items v ↔ (Contains waiting.old.items v ⊎ ((v ≡ u.now) × (mark_at self.old v ≡ Some false)))) }
        ensures balance { OnOk result (length waiting.new.items + unmarked_count self.new ≡ length waiting.old.items + unmarked_count self.old) }
    {
        if !self.lacks(u) {
            return Ok(());
        }
        self.mark(waiting, u)?;
        Ok(())
    }

    fn mark(&mut self, waiting: &mut Vec<Unknown>, u: &Unknown) -> Result<(), Memory>
        requires { mark_at self.old u.now ≡ Some false }
        ensures there { (v : TheUnknown) → OnOk result (IsIn self.new v ↔ IsIn self.old v) }
        ensures marked { (v : TheUnknown) → OnOk result (IsMarked self.new v ↔ (IsMarked self.old v ⊎ ((v ≡ u.now) × IsIn self.old v))) }
        ensures waiting { (v : TheUnknown) → OnOk result (Contains waiting.new.items v ↔ (Contains waiting.old.items v ⊎ ((v ≡ u.now) × (mark_at self.old v ≡ Some false)))) }
        ensures balance { OnOk result (length waiting.new.items + unmarked_count self.new ≡ length waiting.old.items + unmarked_count self.old) }
    {
        waiting.push(*u)?;
        put(&mut self.map, u, true)?;
        Ok(())
    }

    /// Whether an unknown can be added and isn't a member.
    fn lacks(&self, u: &Unknown) -> bool
        ensures { IsTrue result ↔ (mark_at self.now u.now ≡ Some false) }
    {
        match self.map.get(u) {
            Some(mark) => !*mark,
            None => false,
        }
    }
}

/// Sets the mark of an unknown.
fn put(map: &mut IndexMap<Unknown, bool>, u: &Unknown, mark: bool) -> Result<(), Memory>
    ensures { OnOk result (map.new.entries ≡ with_mark map.old.entries u.now mark) }
{
    map.insert(*u, mark)?;
    Ok(())
}

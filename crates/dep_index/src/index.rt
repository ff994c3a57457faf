//! The index of who reads what.
ghost use Rattle.std.specs.Prelude.{◌≡◌, ◌↔◌, [], OnOk, OnErr, Contains};
ghost use Rattle.constraint_sys.specs.Table.{unknown_cmp};
ghost use Rattle.constraint_sys.specs.declared.unknown.Unknown.{Unknown as TheUnknown};
ghost use Rattle.dep_index.specs.Rows.{IsAscending};
ghost use Rattle.dep_index.specs.Noted.{reads_of, noted};

use crate::gone::{are_same, without};
use crate::rows::{exchange, put_each, remove_row, reserve_each, row, take_each, take_old};
use constraint_sys::Unknown;
use gob_tree::Memory;
use indexmap::IndexMap;
use std::alloc::Global;
use std::marker::Model;

/// The last noted reads of each reader, which contracts see as a list of notes; a reader without a
/// note reads nothing.
#[derive(Drop)]
pub struct DepIndex {
    reads: IndexMap<Unknown, Vec<Unknown>>,
    readers: IndexMap<Unknown, Vec<Unknown>>,
}

impl Model for DepIndex {
    ghost use Rattle.dep_index.specs.Rows.{notes_of, IsInverse};
    ghost use Rattle.dep_index.specs.Noted.{Notes};

    ghost Value = { Notes };

    ghost view = { λ d. notes_of d.reads.entries };

    ghost invariant = { λ d. IsInverse d.reads.entries d.readers.entries };
}

impl DepIndex {
    /// The index without a note, which takes no memory.
    pub fn new(alloc: Global) -> DepIndex
        ensures { result ≡ [] }
    {
        DepIndex {
            reads: IndexMap::new(alloc),
            readers: IndexMap::new(alloc),
        }
    }

    /// Notes what a reader reads, in place of its earlier reads. It takes its memory first, and none where
    /// the reads are the same as before; `Memory` is want of memory, and leaves the index as it was. The
    /// readers change of those unknowns alone that are added to the reads or gone from them.
    pub fn note(&mut self, alloc: Global, reader: Unknown, reads: &[Unknown]) -> Result<(), Memory>
        ensures ok { (q : TheUnknown) → OnOk result (reads_of self.new q ≡ noted self.old reader reads.now q) }
        ensures err { OnErr result (self.new ≡ self.old) }
    {
        if are_same(row(&self.reads, &reader), reads) {
            return Ok(());
        }
        let fresh = Vec::from_slice(alloc, reads)?;
        let gone = without(alloc, row(&self.reads, &reader), reads)?;
        let added = without(alloc, reads, row(&self.reads, &reader))?;
        reserve_each(alloc, &mut self.readers, added.as_slice())?;
        exchange(&mut self.reads, &reader, fresh)?;
        take_each(&mut self.readers, gone.as_slice(), &reader);
        put_each(&mut self.readers, added.as_slice(), &reader);
        Ok(())
    }

    /// The readers whose last noted reads hold an unknown, in their order, each once. It takes no memory,
    /// and no time that grows with their number.
    pub fn readers<'a>(&'a self, u: &Unknown) -> &'a [Unknown]
        ensures members { (q : TheUnknown) → Contains result.now q ↔ Contains (reads_of self.now q) u.now }
        ensures ascending { IsAscending unknown_cmp result.now }
    {
        row(&self.readers, u)
    }

    /// Forgets what a reader reads.
    pub fn forget(&mut self, reader: Unknown)
        ensures { (q : TheUnknown) → reads_of self.new q ≡ noted self.old reader [] q }
    {
        let old = remove_row(&mut self.reads, &reader);
        take_old(&mut self.readers, &old, &reader);
    }
}

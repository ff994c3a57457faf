//! Entries by name.

ghost use Rattle.std.specs.Prelude.{◌≡◌, ◌++◌, ◌∷◌, [], List, ℕ, length, cond, Some, None, OnOk, OnErr};
ghost use Rattle.std.specs.Option.{option_copied, option_or};
ghost use Rattle.std.specs.Str.{bytes_eq};
ghost use Rattle.c_check.specs.Names.{named};
ghost use Rattle.c_check.specs.Tables.{at_name};

use crate::keys::put;
use gob_tree::{Memory, Text};
use indexmap::IndexMap;
use std::alloc::Global;
use std::marker::Model;

/// Values by name, in the order in which they were added. Contracts see the list of the names with
/// their values. A name is found in one step, by the place of its first entry.
#[derive(Drop)]
pub(crate) struct Named<V> {
    entries: Vec<(Text, V)>,
    firsts: IndexMap<Vec<u8>, usize>,
}

impl<V> Model for Named<V> {
    ghost use Rattle.std.specs.Prelude.{List, ℕ};
    ghost use Rattle.c_check.specs.Tables.{KnowsFirsts};

    ghost Value = { List (List ℕ × V) };

    ghost view = { λ n. n.entries.items };

    ghost invariant = { λ n. KnowsFirsts n.firsts.entries n.entries.items };
}

impl<V> Named<V> {
    /// No entries.
    pub(crate) fn new(alloc: Global) -> Named<V>
        ensures { result ≡ [] }
    {
        Named {
            entries: Vec::new(alloc),
            firsts: IndexMap::new(alloc),
        }
    }

    /// The number of entries.
    pub(crate) fn len(&self) -> usize
        ensures { result ≡ length self.now }
    {
        self.entries.len()
    }

    /// The first value of a name; `None` exactly where the name isn't there.
    pub(crate) fn find(&self, name: &Text) -> Option<&V>
        ensures { option_copied result ≡ named name.now self.now }
    {
        match self.firsts.get(name.as_bytes()) {
            Some(place) => match self.entries.get(*place) {
                Some(entry) => Some(&entry.1),
                None => None,
            },
            None => None,
        }
    }
}

impl<V: Drop> Named<V> {
    /// Adds a value behind the others; `Memory` is want of memory, and leaves the entries as they
    /// were.
    pub(crate) fn push(&mut self, alloc: Global, name: &Text, value: V) -> Result<(), Memory>
        ensures ok { OnOk result (self.new ≡ self.old ++ (name.now, value) ∷ []) }
        ensures err { OnErr result (self.new ≡ self.old) }
    {
        let own = name.copy(alloc)?;
        self.entries.reserve(1)?;
        note_first(alloc, &mut self.firsts, name, self.entries.len())?;
        self.entries.push_reserved((own, value));
        Ok(())
    }
}

/// Notes the place of a name that has none; `Memory` is want of memory, and leaves the places as
/// they were.
fn note_first(
    alloc: Global,
    firsts: &mut IndexMap<Vec<u8>, usize>,
    name: &Text,
    place: usize,
) -> Result<(), Memory>
    ensures ok { (x : List ℕ) → OnOk result (at_name x firsts.new.entries ≡ option_or (at_name x firsts.old.entries) (cond (bytes_eq x name.now) (Some place) None)) }
    ensures err { OnErr result (firsts.new.entries ≡ firsts.old.entries) }
{
    if firsts.contains_key(name.as_bytes()) {
        return Ok(());
    }
    let key = Vec::from_slice(alloc, name.as_bytes())?;
    put(firsts, key, place)?;
    Ok(())
}

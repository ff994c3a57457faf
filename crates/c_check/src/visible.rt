//! The declarations of a function that are seen at a place.

ghost use Rattle.std.specs.Prelude.{◌≡◌, OnOk, [], ◌∷◌, drop};
ghost use Rattle.c_check.specs.Names.{named, begins_in, without_block};

use crate::keys::put;
use crate::meaning::Declared;
use gob_tree::{Memory, Text};
use indexmap::IndexMap;
use std::alloc::Global;
use std::marker::Model;

/// A declaration, and what its name meant before it.
#[derive(Drop)]
pub(crate) struct Hiding {
    pub name: Vec<u8>,
    pub declared: Declared,
    pub hidden: Option<Declared>,
}

/// Declarations by name, which contracts see as a list with the latest first. The latest one of a
/// name is found in one step; a block that ends gives back to each of its names what it hid.
#[derive(Drop)]
pub(crate) struct Visible {
    /// The latest last.
    all: Vec<Hiding>,
    latest: IndexMap<Vec<u8>, Option<Declared>>,
}

impl Model for Visible {
    ghost use Rattle.std.specs.Prelude.{List, ℕ, reverse};
    ghost use Rattle.c_check.specs.declared.meaning.Declared.{Declared};
    ghost use Rattle.c_check.specs.Tables.{declarations, AreSeen};

    ghost Value = { List (List ℕ × Declared) };

    ghost view = { λ v. declarations (reverse v.all.items) };

    ghost invariant = { λ v. AreSeen v.latest.entries (reverse v.all.items) };
}

impl Visible {
    /// No declarations.
    pub(crate) fn new(alloc: Global) -> Visible
        ensures { result ≡ [] }
    {
        Visible {
            all: Vec::new(alloc),
            latest: IndexMap::new(alloc),
        }
    }

    /// The latest declaration of a name that is seen.
    pub(crate) fn find(&self, name: &Text) -> Option<Declared>
        ensures { result ≡ named name.now self.now }
    {
        match self.latest.get(name.as_bytes()) {
            Some(declared) => *declared,
            None => None,
        }
    }

    /// One more declaration, which is the latest.
    pub(crate) fn add(
        &mut self,
        alloc: Global,
        name: &Text,
        declared: Declared,
    ) -> Result<(), Memory>
        ensures { OnOk result (self.new ≡ (name.now, declared) ∷ self.old) }
    {
        let hidden = self.find(name);
        let own = Vec::from_slice(alloc, name.as_bytes())?;
        let key = Vec::from_slice(alloc, name.as_bytes())?;
        self.all.reserve(1)?;
        put(&mut self.latest, key, Some(declared))?;
        self.all.push_reserved(Hiding {
            name: own,
            declared,
            hidden,
        });
        Ok(())
    }

    /// Without the latest declarations that stand in so many blocks.
    #[tactic(auto, using(crate::proofs::Tables::without_one, crate::proofs::Tables::without_none, crate::proofs::Tables::fewer))]
    pub(crate) fn end_block(&mut self, depth: usize)
        ensures { self.new ≡ without_block depth self.old }
    {
        while self.is_in_block(depth) {
            self.end_latest();
        }
    }

    /// Whether the latest declaration stands in so many blocks.
    #[tactic(auto, using(crate::proofs::Tables::in_block, crate::proofs::Tables::in_no_block))]
    fn is_in_block(&self, depth: usize) -> bool
        ensures { result ≡ begins_in depth self.now }
    {
        match self.all.last() {
            Some(last) => last.declared.depth == depth,
            None => false,
        }
    }

    /// Without the latest declaration: its name means again what it meant before.
    #[tactic(auto, using(crate::proofs::Tables::one_more))]
    fn end_latest(&mut self)
        ensures { self.new ≡ drop 1 self.old }
    {
        match self.all.pop() {
            None => {}
            Some(last) => {
                let Hiding { name, hidden, .. } = last;
                match put(&mut self.latest, name, hidden) {
                    Ok(()) => {}
                    Err(_) => unreachable!(),
                }
            }
        }
    }
}

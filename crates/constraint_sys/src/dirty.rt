//! The points whose turn is still to come.
ghost use Rattle.std.specs.Prelude.{◌≡◌, ◌≢◌, ◌↔◌, ◌⊎◌, [], IsTrue, OnOk, OnErr, Contains, slice_get};
ghost use Rattle.constraint_sys.specs.declared.unknown.Unknown.{Unknown as TheUnknown};
ghost use Rattle.constraint_sys.specs.Turn.{IsAscending};

use crate::readers::has_unknown;
use crate::unknown::Unknown;
use gob_tree::Memory;
use std::alloc::Global;
use std::collections::BTreeSet;
use std::marker::Model;

/// A finite set of points, which contracts see as the list of its members in the order of unknowns,
/// none twice. To find the first, to take one out and to add one takes a time that grows with the
/// logarithm of the number of members.
#[derive(Drop)]
pub struct Dirty {
    points: BTreeSet<Unknown>,
}

impl Model for Dirty {
    ghost use Rattle.std.specs.Prelude.{List};
    ghost use Rattle.constraint_sys.specs.declared.unknown.Unknown.{Unknown};
    ghost use Rattle.constraint_sys.specs.Turn.{IsAscending};

    ghost Value = { List Unknown };

    ghost view = { λ d. d.points.keys };

    ghost invariant = { λ d. IsAscending d.points.keys };
}

impl Dirty {
    /// The empty set, which takes no memory.
    pub fn new(alloc: Global) -> Dirty
        ensures { result ≡ [] }
    {
        Dirty {
            points: BTreeSet::new(alloc),
        }
    }

    /// Whether there is no member.
    pub fn is_empty(&self) -> bool
        ensures { IsTrue result ↔ (self.now ≡ []) }
    {
        self.points.is_empty()
    }

    /// Whether a point is a member.
    pub fn contains(&self, u: &Unknown) -> bool
        ensures { IsTrue result ↔ Contains self.now u.now }
    {
        has(&self.points, u)
    }

    /// The first member in the order of unknowns; `None` exactly where there is none.
    pub fn first(&self) -> Option<Unknown>
        ensures value { result ≡ slice_get self.now 0 }
        ensures ascending { IsAscending self.now }
    {
        self.points.first().copied()
    }

    /// Adds points; `Memory` is want of memory, and leaves the set as it was.
    pub fn add(&mut self, alloc: Global, more: &[Unknown]) -> Result<(), Memory>
        ensures ok { (q : TheUnknown) → OnOk result (Contains self.new q ↔ (Contains self.old q ⊎ Contains more.now q)) }
        ensures err { OnErr result (self.new ≡ self.old) }
        ensures ascending { IsAscending self.new }
    {
        let mut added = Vec::new(alloc);
        match try_add(&mut self.points, &mut added, more) {
            Ok(()) => Ok(()),
            Err(error) => {
                take_back(&mut self.points, added.as_slice());
                Err(error)
            }
        }
    }

    /// Takes one point out and adds others; `Memory` is want of memory, and leaves the set as it
    /// was.
    pub(crate) fn exchange(
        &mut self,
        alloc: Global,
        done: &Unknown,
        more: &[Unknown],
    ) -> Result<(), Memory>
        ensures ok { (q : TheUnknown) → OnOk result (Contains self.new q ↔ (((Contains self.old q) × (q ≢ done.now)) ⊎ Contains more.now q)) }
        ensures err { OnErr result (self.new ≡ self.old) }
        ensures ascending { IsAscending self.new }
    {
        self.add(alloc, more)?;
        if !has_unknown(more, done) {
            take_out(&mut self.points, done);
        }
        Ok(())
    }
}

fn has(points: &BTreeSet<Unknown>, u: &Unknown) -> bool
    ensures { IsTrue result ↔ Contains points.now.keys u.now }
{
    points.contains(u)
}

fn put_in(points: &mut BTreeSet<Unknown>, u: Unknown) -> Result<(), Memory>
    ensures ok { (q : TheUnknown) → OnOk result (Contains points.new.keys q ↔ (Contains points.old.keys q ⊎ (q ≡ u))) }
    ensures err { OnErr result (points.new.keys ≡ points.old.keys) }
    ensures ascending { IsAscending points.new.keys }
{
    points.insert(u)?;
    Ok(())
}

fn take_out(points: &mut BTreeSet<Unknown>, u: &Unknown)
    ensures members { (q : TheUnknown) → Contains points.new.keys q ↔ ((Contains points.old.keys q) × (q ≢ u.now)) }
    ensures ascending { IsAscending points.new.keys }
{
    points.remove(u);
}

/// Adds points, and notes those that weren't there. `Memory` may come with some of them added.
fn try_add(
    points: &mut BTreeSet<Unknown>,
    added: &mut Vec<Unknown>,
    more: &[Unknown],
) -> Result<(), Memory>
    requires none { added.old.items ≡ [] }
    requires ascending { IsAscending points.old.keys }
    ensures ok { (q : TheUnknown) → OnOk result (Contains points.new.keys q ↔ (Contains points.old.keys q ⊎ Contains more.now q)) }
    ensures kept { (q : TheUnknown) → Contains points.old.keys q → Contains points.new.keys q }
    ensures noted { (q : TheUnknown) → Contains points.new.keys q → Contains points.old.keys q ⊎ Contains added.new.items q }
    ensures absent { (q : TheUnknown) → Contains added.new.items q → Contains points.old.keys q → ⊥ }
    ensures ascending { IsAscending points.new.keys }
{
    for u in more {
        if !has(points, u) {
            added.push(*u)?;
            put_in(points, *u)?;
        }
    }
    Ok(())
}

fn take_back(points: &mut BTreeSet<Unknown>, added: &[Unknown])
    requires { IsAscending points.old.keys }
    ensures members { (q : TheUnknown) → Contains points.new.keys q ↔ (Contains points.old.keys q × (Contains added.now q → ⊥)) }
    ensures ascending { IsAscending points.new.keys }
{
    for u in added {
        take_out(points, u);
    }
}

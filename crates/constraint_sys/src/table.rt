//! The table: the values of the unknowns, in the order in which they arose.
ghost use Rattle.std.specs.Prelude.{◌≡◌, ◌≢◌, ◌∷◌, ◌++◌, [], None, Some, IfOk, OnOk, OnErr, ◌↔◌, IsTrue, Some, length, slice_get, take, IsPermutation, IsSorted};
ghost use Rattle.std.specs.Option.{option_copied};
ghost use Rattle.std.specs.List.{IsDistinct};
ghost use Rattle.std.specs.Map.{keys_of};
ghost use Rattle.indexmap.specs.IndexMap.{IsUnique};
ghost use Rattle.constraint_sys.specs.Arising.{AreAlike};
ghost use Rattle.constraint_sys.specs.PostSolution.{BoundsAt};
ghost use Rattle.constraint_sys.specs.Sound.{IsShaped, IsShapedEntry};
ghost use Rattle.constraint_sys.specs.Turn.{raised_value};
ghost use Rattle.constraint_sys.specs.declared.unknown.Unknown.{Unknown as TheUnknown};
ghost use Rattle.constraint_sys.specs.declared.value.Value.{Value as TheValue};
ghost use Rattle.constraint_sys.specs.Table.{value_at, with_value, unknown_eq, unknown_cmp, IsThere};

use crate::unknown::Unknown;
use crate::value::Value;
use gob_tree::{Memory, Program};
use indexmap::IndexMap;
use interval_dom::{Interval, Width};
use state_dom::Thresholds;
use std::alloc::Global;
use std::marker::Model;

/// A finite map from unknowns to values.
#[derive(Drop)]
pub struct Table {
    map: IndexMap<Unknown, Value>,
}

impl Model for Table {
    ghost use Rattle.constraint_sys.specs.Table.{TableValue};

    ghost Value = { TableValue };

    ghost view = { λ t. t.map.entries };
}

impl Table {
    /// The empty table, which takes no memory.
    pub fn new(alloc: Global) -> Table
        ensures { result ≡ [] }
    {
        Table {
            map: IndexMap::new(alloc),
        }
    }

    /// The number of unknowns.
    pub fn len(&self) -> usize
        ensures value { result ≡ length self.now }
        ensures distinct { IsDistinct unknown_eq (keys_of self.now) }
    {
        self.map.len()
    }

    /// The value of an unknown; `None` exactly where it isn't in the table.
    pub fn get(&self, u: &Unknown) -> Option<&Value>
        ensures { option_copied result ≡ value_at self.now u.now }
    {
        self.map.get(u)
    }

    /// The unknowns in their order; `Memory` is want of memory.
    pub fn sorted(&self, alloc: Global) -> Result<Vec<Unknown>, Memory>
        ensures all { IfOk result (λ us. IsPermutation (keys_of self.now) us.items) }
        ensures sorted { IfOk result (λ us. IsSorted unknown_cmp us.items) }
    {
        let mut all: Vec<Unknown> = self.map.keys().copied().collect(alloc)?;
        all.sort()?;
        Ok(all)
    }

    /// An equal table; `Memory` is want of memory.
    pub fn copy(&self, alloc: Global) -> Result<Table, Memory>
        ensures { IfOk result (λ t. t ≡ self.now) }
    {
        let mut map = IndexMap::new(alloc);
        for i in 0..self.map.len() {
            if let Some((u, v)) = self.map.get_index(i) {
                let v = v.copy(alloc)?;
                put(&mut map, *u, v)?;
            }
        }
        Ok(Table { map })
    }

    /// Adds an unknown that isn't in the table; `Memory` is want of memory, and leaves the table
    /// as it was.
    pub fn add(&mut self, u: Unknown, v: Value) -> Result<(), Memory>
        requires { value_at self.old u ≡ None }
        ensures ok { OnOk result (self.new ≡ self.old ++ (u, v) ∷ []) }
        ensures others { (q : TheUnknown) → OnOk result (q ≢ u → value_at self.new q ≡ value_at self.old q) }
        ensures err { OnErr result (self.new ≡ self.old) }
    {
        put(&mut self.map, u, v)
    }

    /// Drops all entries but the first ones, so many.
    pub(crate) fn truncate(&mut self, len: usize)
        ensures { self.new ≡ take len self.old }
    {
        self.map.truncate(len);
    }

    /// The unknown of an entry, counted from 0 in the order of arising; `None` exactly past the last.
    pub fn unknown(&self, index: usize) -> Option<Unknown>
        ensures { result ≡ slice_get (keys_of self.now) index }
    {
        match self.map.get_index(index) {
            Some((u, _)) => Some(*u),
            None => None,
        }
    }

    /// Whether the table has the unknown and bounds the value there, which fits the unknown.
    pub fn bounds(&self, program: &Program, u: &Unknown, v: &Value) -> bool
        requires shaped { IsShaped program.now self.now }
        requires fits { IsShapedEntry program.now u.now v.now }
        ensures { IsTrue result ↔ BoundsAt self.now u.now v.now }
    {
        match self.get(u) {
            Some(old) => v.le(old),
            None => false,
        }
    }

    /// Raises the value of an unknown of the table; takes no memory.
    pub(crate) fn raise(&mut self, u: &Unknown, v: &Value, marks: &Thresholds)
        requires there { IsThere self.old u.now }
        requires alike { (old : TheValue) → value_at self.old u.now ≡ Some old → AreAlike old v.now }
        ensures { (old : TheValue) → value_at self.old u.now ≡ Some old → self.new ≡ with_value self.old u.now (raised_value marks.now old v.now) }
    {
        let place = Value::Number(Interval::full(Width::W32));
        if let Ok(Some(mut old)) = self.map.insert(*u, place) {
            old.raise(v, marks);
            self.set(u, old);
        }
    }

    /// Gives an unknown of the table another value; takes no memory.
    pub fn set(&mut self, u: &Unknown, v: Value)
        requires { IsThere self.old u.now }
        ensures { self.new ≡ with_value self.old u.now v }
    {
        match put(&mut self.map, *u, v) {
            Ok(()) => {}
            Err(_) => unreachable!(),
        }
    }
}

/// Puts the value at the unknown, in its place or at the end. It fails only where the unknown isn't
/// there.
fn put(map: &mut IndexMap<Unknown, Value>, u: Unknown, v: Value) -> Result<(), Memory>
    ensures put { OnOk result (map.new.entries ≡ with_value map.old.entries u v) }
    ensures others { (q : TheUnknown) → OnOk result (q ≢ u → value_at map.new.entries q ≡ value_at map.old.entries q) }
    ensures unique { IsUnique unknown_eq map.new }
    ensures err { OnErr result (map.new.entries ≡ map.old.entries) }
    ensures absent { OnErr result (value_at map.old.entries u ≡ None) }
{
    map.insert(u, v)?;
    Ok(())
}

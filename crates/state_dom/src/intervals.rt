ghost use Rattle.std.specs.Prelude.{◌≡◌, ◌↔◌, ◌<◌, IfOk, IsTrue, Some, length, slice_get, slice_set, replicate, IsSorted, pos};
ghost use Rattle.std.specs.Ordering.{int_cmp};
ghost use Rattle.interval_dom.specs.Bounds.{between, hull};
ghost use Rattle.interval_dom.specs.Marks.{widened};
ghost use Rattle.state_dom.specs.StateValue.{CoversEach, on_each};

use gob_tree::Memory;
use interval_dom::Interval;
use std::alloc::Global;
use std::marker::Model;

/// An interval for each place, kept as a column of low ends and one of high ends, so that several
/// places are compared and joined at a time.
#[derive(Debug, Drop)]
pub(crate) struct Intervals {
    lo: Vec<i64>,
    hi: Vec<i64>,
}

impl Model for Intervals {
    ghost use Rattle.std.specs.Prelude.{List};
    ghost use Rattle.interval_dom.specs.Bounds.{Bounds};
    ghost use Rattle.state_dom.specs.Columns.{of_columns, AreColumns};

    ghost Value = { List Bounds };

    ghost view = { λ c. of_columns c.lo.items c.hi.items };

    ghost invariant = { λ c. AreColumns c.lo.items c.hi.items };
}

impl Intervals {
    /// `[0,0]` at each of so many places.
    pub(crate) fn zeros(alloc: Global, count: u16) -> Result<Intervals, Memory>
        ensures { IfOk result (λ c. c ≡ replicate count (between (pos 0) (pos 0))) }
    {
        let lo = vec![in alloc; 0; count as usize]?;
        let hi = vec![in alloc; 0; count as usize]?;
        Ok(Intervals { lo, hi })
    }

    /// An equal value.
    pub(crate) fn copy(&self, alloc: Global) -> Result<Intervals, Memory>
        ensures { IfOk result (λ c. c ≡ self.now) }
    {
        let lo = Vec::from_slice(alloc, self.lo.as_slice())?;
        let hi = Vec::from_slice(alloc, self.hi.as_slice())?;
        Ok(Intervals { lo, hi })
    }

    /// The number of places.
    pub(crate) fn len(&self) -> usize
        ensures { result ≡ length self.now }
    {
        self.lo.len()
    }

    /// The interval of a place.
    pub(crate) fn get(&self, i: usize) -> Interval
        requires { i < length self.now }
        ensures { slice_get self.now i ≡ Some result }
    {
        match Interval::new(self.lo[i], self.hi[i]) {
            Some(interval) => interval,
            None => unreachable!(),
        }
    }

    /// Gives a place another interval.
    pub(crate) fn set(&mut self, i: usize, interval: Interval)
        requires { i < length self.old }
        ensures { self.new ≡ slice_set self.old i interval }
    {
        self.lo[i] = interval.lo();
        self.hi[i] = interval.hi();
    }

    /// Gives each place the other's interval.
    pub(crate) fn set_to(&mut self, other: &Intervals)
        requires { length self.old ≡ length other.now }
        ensures { self.new ≡ other.now }
    {
        self.lo.as_mut_slice().copy_from_slice(other.lo.as_slice());
        self.hi.as_mut_slice().copy_from_slice(other.hi.as_slice());
    }

    /// Whether each interval of the other holds this one of its place.
    pub(crate) fn le(&self, other: &Intervals) -> bool
        requires { length self.now ≡ length other.now }
        ensures { IsTrue result ↔ CoversEach other.now self.now }
    {
        lane_bounds::le_all(
            self.lo.as_slice(),
            self.hi.as_slice(),
            other.lo.as_slice(),
            other.hi.as_slice(),
        )
    }

    /// Raises each interval to the least that holds it and the other's.
    pub(crate) fn join_into(&mut self, other: &Intervals)
        requires { length self.old ≡ length other.now }
        ensures value { self.new ≡ on_each hull self.old other.now }
        ensures sized { length self.new ≡ length self.old }
        ensures old { CoversEach self.new self.old }
        ensures new { CoversEach self.new other.now }
    {
        lane_bounds::join_into(
            self.lo.as_mut_slice(),
            self.hi.as_mut_slice(),
            other.lo.as_slice(),
            other.hi.as_slice(),
        );
    }

    /// Raises each interval by the other's; an end that moves goes on to the next of the marks.
    pub(crate) fn widen_into(&mut self, other: &Intervals, marks: &[i64])
        requires sizes { length self.old ≡ length other.now }
        requires ascending { IsSorted int_cmp marks.now }
        ensures value { self.new ≡ on_each (λ x y. widened x y marks.now) self.old other.now }
        ensures sized { length self.new ≡ length self.old }
        ensures old { CoversEach self.new self.old }
        ensures new { CoversEach self.new other.now }
    {
        for i in 0..self.len() {
            let here = self.get(i);
            let there = other.get(i);
            self.set(i, here.widen(there, marks));
        }
    }
}

//! An interval of whole numbers of 64 bits.

ghost use Rattle.std.specs.Prelude.{◌≡◌, ℤ, ◌≤ℤ◌, ◌<ℤ◌, ◌↔◌, IsTrue, IsNone, IfSome};
ghost use Rattle.interval_dom.specs.Bounds.{Bounds, between, Describes, Covers, covers, hull, unless_empty};
ghost use Rattle.interval_dom.specs.Ranges.{full};

mod arithmetic;
mod comparison;
mod division;
mod wide;
mod widening;

use crate::width::Width;
use std::marker::Model;

/// The numbers from one number to another that is not below it.
///
/// Contracts see it as its two ends, `lo` and `hi`.
#[derive(Clone, Copy, Debug, PartialEq, Eq)]
pub struct Interval {
    lo: i64,
    hi: i64,
}

impl Model for Interval {
    ghost use Rattle.std.specs.Prelude.{◌≤ℤ◌};
    ghost use Rattle.interval_dom.specs.Bounds.{Bounds};

    ghost Value = { Bounds };

    ghost view = { λ i. record { lo = i.lo; hi = i.hi } };

    ghost invariant = { λ i. i.lo ≤ℤ i.hi };

    ghost inverse = { λ b. record { lo = b.lo; hi = b.hi } };
}

impl Interval {
    /// The numbers from `lo` to `hi`, or None where there are none.
    pub fn new(lo: i64, hi: i64) -> Option<Interval>
        ensures value { result ≡ unless_empty (between lo hi) }
        ensures none { IsNone result ↔ (hi <ℤ lo) }
        ensures some { IfSome result (λ i. i ≡ between lo hi) }
    {
        if lo <= hi {
            Some(Interval { lo, hi })
        } else {
            None
        }
    }

    /// All numbers of a width.
    pub fn full(w: Width) -> Interval
        ensures { result ≡ full w }
    {
        match w {
            Width::W32 => Interval {
                lo: -2147483648,
                hi: 2147483647,
            },
            Width::W64 => Interval {
                lo: i64::MIN,
                hi: i64::MAX,
            },
        }
    }

    /// The least number.
    pub fn lo(self) -> i64
        ensures value { result ≡ self.lo }
        ensures ordered { self.lo ≤ℤ self.hi }
    {
        self.lo
    }

    /// The greatest number.
    pub fn hi(self) -> i64
        ensures value { result ≡ self.hi }
        ensures ordered { self.lo ≤ℤ self.hi }
    {
        self.hi
    }

    /// The least interval that covers both.
    pub fn join(self, other: Interval) -> Interval
        ensures value { result ≡ hull self other }
        ensures left { Covers result self }
        ensures right { Covers result other }
        ensures least { (outer : Bounds) → Covers outer self → Covers outer other → Covers outer result }
    {
        Interval {
            lo: self.lo.min(other.lo),
            hi: self.hi.max(other.hi),
        }
    }

    /// Whether each number of `self` is one of `other`.
    pub fn le(self, other: Interval) -> bool
        ensures value { result ≡ covers other self }
        ensures ends { IsTrue result ↔ Covers other self }
        ensures numbers { IsTrue result ↔ ((n : ℤ) → Describes self n → Describes other n) }
    {
        other.lo <= self.lo && self.hi <= other.hi
    }
}

//! Ranges before they are fitted to a width.

ghost use Rattle.std.specs.Prelude.{◌≡◌, ◌≤ℤ◌};
ghost use Rattle.interval_dom.specs.Bounds.{between, hull, Covers};
ghost use Rattle.interval_dom.specs.Ranges.{full, fitted, extremes};

use crate::interval::Interval;
use crate::width::Width;
use std::marker::Model;

/// The numbers between two ends of 128 bits, in which sums and products of numbers of 64 bits
/// are exact.
#[derive(Clone, Copy)]
pub(crate) struct Wide {
    lo: i128,
    hi: i128,
}

impl Model for Wide {
    ghost use Rattle.std.specs.Prelude.{◌≤ℤ◌};
    ghost use Rattle.interval_dom.specs.Bounds.{Bounds};

    ghost Value = { Bounds };

    ghost view = { λ w. record { lo = w.lo; hi = w.hi } };

    ghost invariant = { λ w. w.lo ≤ℤ w.hi };

    ghost inverse = { λ b. record { lo = b.lo; hi = b.hi } };
}

impl Wide {
    /// The numbers from `lo` to `hi`.
    pub(crate) fn new(lo: i128, hi: i128) -> Wide
        requires { lo ≤ℤ hi }
        ensures { result ≡ between lo hi }
    {
        Wide { lo, hi }
    }

    /// From the least of four numbers to the greatest.
    pub(crate) fn of_four(p: i128, q: i128, r: i128, s: i128) -> Wide
        ensures { result ≡ extremes p q r s }
    {
        Wide {
            lo: p.min(q).min(r.min(s)),
            hi: p.max(q).max(r.max(s)),
        }
    }

    /// The least range that covers both.
    pub(crate) fn join(self, other: Wide) -> Wide
        ensures { result ≡ hull self other }
    {
        Wide {
            lo: self.lo.min(other.lo),
            hi: self.hi.max(other.hi),
        }
    }

    /// The interval itself where it lies in the width, else all numbers of the width.
    pub(crate) fn fit(self, w: Width) -> Interval
        ensures value { result ≡ fitted w self }
        ensures of_width { Covers (full w) result }
    {
        let all = Interval::full(w);
        if i128::from(all.lo) <= self.lo && self.hi <= i128::from(all.hi) {
            Interval {
                lo: self.lo as i64,
                hi: self.hi as i64,
            }
        } else {
            all
        }
    }
}

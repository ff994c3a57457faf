//! What is known of comparisons of numbers of intervals, and what is known where they hold.

ghost use Rattle.std.specs.Prelude.{◌≡◌, ℤ, ◌≤ℤ◌, pos, ◌↔◌, IsSomeAnd, IfSome};
ghost use Rattle.interval_dom.specs.Bounds.{between, Describes, Covers, unless_empty};
ghost use Rattle.interval_dom.specs.Comparisons.{Relates, opposite_of, surely, comparison, refined, past_low, past_high};

use crate::cmp::Cmp;
use crate::interval::Interval;

impl Interval {
    /// The value of a comparison in C: [1,1] where it holds for all pairs of numbers, [0,0] where
    /// it holds for none, else [0,1].
    pub fn compare(self, op: Cmp, other: Interval) -> Interval
        ensures value { result ≡ comparison op self other }
        ensures all { (result ≡ between (pos 1) (pos 1)) ↔ ((x y : ℤ) → Describes self x → Describes other y → Relates op x y) }
        ensures none { (result ≡ between (pos 0) (pos 0)) ↔ ((x y : ℤ) → Describes self x → Describes other y → ¬ (Relates op x y)) }
        ensures holds { (x y : ℤ) → Describes self x → Describes other y → Relates op x y → Describes result (pos 1) }
        ensures fails { (x y : ℤ) → Describes self x → Describes other y → ¬ (Relates op x y) → Describes result (pos 0) }
    {
        compared(op, self, other)
    }

    /// What is left of the interval where its number stands in a comparison with a number of
    /// `other`, by the ends alone. None where nothing is left.
    pub fn refine(self, op: Cmp, other: Interval) -> Option<Interval>
        ensures value { result ≡ refined op self other }
        ensures keeps { (x y : ℤ) → Describes self x → Describes other y → Relates op x y → IsSomeAnd result (λ i. Describes i x) }
        ensures within { IfSome result (λ i. Covers self i) }
    {
        cut(self, op, other)
    }
}

// 1, 0 or either, by the ends.
fn compared(op: Cmp, a: Interval, b: Interval) -> Interval
    ensures value { result ≡ comparison op a b }
    ensures left { a.lo ≤ℤ a.hi }
    ensures right { b.lo ≤ℤ b.hi }
{
    if holds_for_all(op, a, b) {
        Interval { lo: 1, hi: 1 }
    } else if holds_for_all(op.opposite(), a, b) {
        Interval { lo: 0, hi: 0 }
    } else {
        Interval { lo: 0, hi: 1 }
    }
}

// What is left of `kept` between the ends that the comparison allows.
fn cut(kept: Interval, op: Cmp, other: Interval) -> Option<Interval>
    ensures { result ≡ refined op kept other }
{
    match op {
        Cmp::Lt => Interval::new(kept.lo, kept.hi.min(other.hi.checked_sub(1)?)),
        Cmp::Le => Interval::new(kept.lo, kept.hi.min(other.hi)),
        Cmp::Gt => Interval::new(kept.lo.max(other.lo.checked_add(1)?), kept.hi),
        Cmp::Ge => Interval::new(kept.lo.max(other.lo), kept.hi),
        Cmp::Eq => Interval::new(kept.lo.max(other.lo), kept.hi.min(other.hi)),
        Cmp::Ne => without(kept, other),
    }
}

// What is left where `other` is one number, and an end that equals it is dropped.
fn without(kept: Interval, other: Interval) -> Option<Interval>
    ensures { result ≡ refined Cmp.Ne kept other }
{
    if other.lo < other.hi {
        Some(kept)
    } else {
        without_end(kept, other.lo)
    }
}

// What is left where an end that equals `n` is dropped.
fn without_end(kept: Interval, n: i64) -> Option<Interval>
    ensures { result ≡ unless_empty (between (past_low kept.lo (between n n)) (past_high kept.hi (between n n))) }
{
    match (kept.lo == n, kept.hi == n) {
        (true, true) => None,
        (true, false) => Interval::new(n + 1, kept.hi),
        (false, true) => Interval::new(kept.lo, n - 1),
        (false, false) => Some(kept),
    }
}

// Whether the comparison holds for each pair of numbers.
fn holds_for_all(op: Cmp, a: Interval, b: Interval) -> bool
    ensures { result ≡ surely op a b }
{
    match op {
        Cmp::Lt => a.hi < b.lo,
        Cmp::Le => a.hi <= b.lo,
        Cmp::Gt => b.hi < a.lo,
        Cmp::Ge => b.hi <= a.lo,
        Cmp::Eq => a.hi <= b.lo && b.hi <= a.lo,
        Cmp::Ne => a.hi < b.lo || b.hi < a.lo,
    }
}

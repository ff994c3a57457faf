//! Quotients and remainders of numbers of intervals, as C17, 6.5.5 has them: a quotient is cut
//! off towards zero.

ghost use Rattle.std.specs.Prelude.{◌≡◌, ◌≢◌, ℤ, ◌-◌, pos, int_div, int_rem, neg_ℤ, int_lt, if◌then◌else◌, ◌≤ℤ◌, ◌↔◌, IsNone, IfSome, IsSomeAnd};
ghost use Rattle.std.specs.Int.{int_min, int_max};
ghost use Rattle.std.specs.Option.{option_map};
ghost use Rattle.interval_dom.specs.Bounds.{between, Describes, Covers};
ghost use Rattle.interval_dom.specs.Ranges.{full, fitted, corners, wrapped, IsOfWidth};
ghost use Rattle.interval_dom.specs.Quotients.{below_zero, above_zero, quotients_by, hull_of, quotients, greatest_abs, remainders};

use crate::interval::Interval;
use crate::interval::wide::Wide;
use crate::width::Width;

impl Interval {
    /// The quotients of two numbers of the intervals, where one outside of the width wraps: the
    /// least number of the width divided by -1.
    ///
    /// None where zero is the only divisor.
    pub fn div(self, other: Interval, w: Width) -> Option<Interval>
        ensures value { result ≡ option_map (fitted w) (quotients self other) }
        ensures of_width { IfSome result (λ i. Covers (full w) i) }
        ensures none { IsNone result ↔ (other ≡ between (pos 0) (pos 0)) }
        ensures bounds { (x y : ℤ) → Describes self x → Describes other y → y ≢ pos 0 → IsSomeAnd result (λ i. Describes i (wrapped w (int_div x y))) }
    {
        let quotients = joined(by_negatives(self, other), by_positives(self, other))?;
        Some(quotients.fit(w))
    }

    /// The remainders of two numbers of the intervals.
    ///
    /// None where zero is the only divisor.
    pub fn rem(self, other: Interval, w: Width) -> Option<Interval>
        ensures value { result ≡ remainders self other }
        ensures of_width { Covers (full w) self → IfSome result (λ i. Covers (full w) i) }
        ensures none { IsNone result ↔ (other ≡ between (pos 0) (pos 0)) }
        ensures bounds { (x y : ℤ) → Describes self x → Describes other y → y ≢ pos 0 → IsSomeAnd result (λ i. Describes i (int_rem x y)) }
        ensures wrapped { (x y : ℤ) → Describes self x → Describes other y → y ≢ pos 0 → IsOfWidth w x → wrapped w (int_rem x y) ≡ int_rem x y }
    {
        remainder_range(self, other)
    }
}

// The quotients by the divisors below zero, where there are some.
fn by_negatives(dividends: Interval, divisors: Interval) -> Option<Wide>
    ensures { result ≡ quotients_by dividends (below_zero divisors) }
{
    if divisors.lo < 0 {
        Some(quotient_range(dividends, divisors.lo, divisors.hi.min(-1)))
    } else {
        None
    }
}

// The quotients by the divisors above zero, where there are some.
fn by_positives(dividends: Interval, divisors: Interval) -> Option<Wide>
    ensures { result ≡ quotients_by dividends (above_zero divisors) }
{
    if divisors.hi > 0 {
        Some(quotient_range(dividends, divisors.lo.max(1), divisors.hi))
    } else {
        None
    }
}

// The range of the quotients by divisors of one sign, from one to another.
fn quotient_range(dividends: Interval, low: i64, high: i64) -> Wide
    requires low { low ≢ pos 0 }
    requires high { high ≢ pos 0 }
    ensures { result ≡ corners int_div dividends (between low high) }
{
    Wide::of_four(
        quotient(dividends.lo, low),
        quotient(dividends.lo, high),
        quotient(dividends.hi, low),
        quotient(dividends.hi, high),
    )
}

fn quotient(x: i64, y: i64) -> i128
    requires { y ≢ pos 0 }
    ensures { result ≡ int_div x y }
{
    i128::from(x) / i128::from(y)
}

// The least range that covers those that are there.
fn joined(p: Option<Wide>, q: Option<Wide>) -> Option<Wide>
    ensures { result ≡ hull_of p q }
{
    match (p, q) {
        (Some(p), Some(q)) => Some(p.join(q)),
        (Some(p), None) => Some(p),
        (None, q) => q,
    }
}

// The greatest absolute value of a remainder by one of the divisors, where one is not zero.
fn greatest_remainder(divisors: Interval) -> Option<i64>
    ensures none { IsNone result ↔ (greatest_abs divisors ≡ 0) }
    ensures some { IfSome result (λ most. most ≡ pos (greatest_abs divisors - 1)) }
    ensures real { IfSome result (λ _. greatest_abs divisors ≢ 0) }
{
    let greatest = divisors.lo.unsigned_abs().max(divisors.hi.unsigned_abs());
    if greatest == 0 {
        None
    } else {
        Some((greatest - 1) as i64)
    }
}

// From zero to the dividends, and nearer to zero than the greatest divisor.
fn remainder_range(dividends: Interval, divisors: Interval) -> Option<Interval>
    ensures { result ≡ remainders dividends divisors }
{
    let most = greatest_remainder(divisors)?;
    Some(Interval {
        lo: low_remainder(dividends.lo, most),
        hi: high_remainder(dividends.hi, most),
    })
}

// The least remainder of numbers from `low` on, none of which is below `-most`.
fn low_remainder(low: i64, most: i64) -> i64
    requires { pos 0 ≤ℤ most }
    ensures value { result ≡ (if int_lt low (pos 0) then int_max low (neg_ℤ most) else pos 0) }
    ensures sign { result ≤ℤ pos 0 }
{
    if low < 0 { low.max(-most) } else { 0 }
}

// The greatest remainder of numbers up to `high`, none of which is above `most`.
fn high_remainder(high: i64, most: i64) -> i64
    requires { pos 0 ≤ℤ most }
    ensures value { result ≡ (if int_lt (pos 0) high then int_min high most else pos 0) }
    ensures sign { pos 0 ≤ℤ result }
{
    if high > 0 { high.min(most) } else { 0 }
}

//! Sums, differences and products of numbers of intervals.

ghost use Rattle.std.specs.Prelude.{◌≡◌, ℤ, ◌+ℤ◌, ◌-ℤ◌, ◌*ℤ◌, neg_ℤ};
ghost use Rattle.interval_dom.specs.Bounds.{Describes, Covers};
ghost use Rattle.interval_dom.specs.Ranges.{full, fitted, sums, differences, opposites, products, wrapped};

use crate::interval::Interval;
use crate::interval::wide::Wide;
use crate::width::Width;

impl Interval {
    /// The sums of two numbers of the intervals, where a sum outside of the width wraps.
    pub fn add(self, other: Interval, w: Width) -> Interval
        ensures value { result ≡ fitted w (sums self other) }
        ensures of_width { Covers (full w) result }
        ensures bounds { (x y : ℤ) → Describes self x → Describes other y → Describes result (wrapped w (x +ℤ y)) }
    {
        Wide::new(sum(self.lo, other.lo), sum(self.hi, other.hi)).fit(w)
    }

    /// The differences of two numbers of the intervals, where one outside of the width wraps.
    pub fn sub(self, other: Interval, w: Width) -> Interval
        ensures value { result ≡ fitted w (differences self other) }
        ensures of_width { Covers (full w) result }
        ensures bounds { (x y : ℤ) → Describes self x → Describes other y → Describes result (wrapped w (x -ℤ y)) }
    {
        Wide::new(difference(self.lo, other.hi), difference(self.hi, other.lo)).fit(w)
    }

    /// The products of two numbers of the intervals, where one outside of the width wraps.
    pub fn mul(self, other: Interval, w: Width) -> Interval
        ensures value { result ≡ fitted w (products self other) }
        ensures of_width { Covers (full w) result }
        ensures bounds { (x y : ℤ) → Describes self x → Describes other y → Describes result (wrapped w (x *ℤ y)) }
    {
        let products = Wide::of_four(
            product(self.lo, other.lo),
            product(self.lo, other.hi),
            product(self.hi, other.lo),
            product(self.hi, other.hi),
        );
        products.fit(w)
    }

    /// The numbers of the interval with the other sign, where one outside of the width wraps.
    pub fn neg(self, w: Width) -> Interval
        ensures value { result ≡ fitted w (opposites self) }
        ensures of_width { Covers (full w) result }
        ensures bounds { (x : ℤ) → Describes self x → Describes result (wrapped w (neg_ℤ x)) }
    {
        Wide::new(negative(self.hi), negative(self.lo)).fit(w)
    }
}

fn sum(x: i64, y: i64) -> i128
    ensures { result ≡ x +ℤ y }
{
    i128::from(x) + i128::from(y)
}

fn difference(x: i64, y: i64) -> i128
    ensures { result ≡ x -ℤ y }
{
    i128::from(x) - i128::from(y)
}

fn product(x: i64, y: i64) -> i128
    ensures { result ≡ x *ℤ y }
{
    i128::from(x) * i128::from(y)
}

fn negative(x: i64) -> i128
    ensures { result ≡ neg_ℤ x }
{
    -i128::from(x)
}

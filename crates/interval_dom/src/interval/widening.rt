//! Widening: ends that move go on to marks, of which there are finitely many.

ghost use Rattle.std.specs.Prelude.{◌≡◌, ℤ, ◌≤ℤ◌, ◌⊎◌, int_lt, if◌then◌else◌, IsSorted, Contains};
ghost use Rattle.std.specs.Ordering.{int_cmp};
ghost use Rattle.interval_dom.specs.Bounds.{Bounds, Covers};
ghost use Rattle.interval_dom.specs.Marks.{mark_below, mark_above, widened, HasMarkBelow, HasMarkAbove};

use crate::interval::Interval;

impl Interval {
    /// `self`, in which an end that `new` moves outwards goes on to the next of the marks.
    ///
    /// Without a mark to go to, it goes to the end of 64 bits.
    pub fn widen(self, new: Interval, marks: &[i64]) -> Interval
        requires { IsSorted int_cmp marks.now }
        ensures value { result ≡ widened self new marks.now }
        ensures old { Covers result self }
        ensures new { Covers result new }
        ensures within { (outer : Bounds) → Contains marks.now outer.lo → Contains marks.now outer.hi → Covers outer self → Covers outer new → Covers outer result }
        ensures low_mark { HasMarkBelow marks.now new.lo → (result.lo ≡ self.lo) ⊎ Contains marks.now result.lo }
        ensures high_mark { HasMarkAbove marks.now new.hi → (result.hi ≡ self.hi) ⊎ Contains marks.now result.hi }
    {
        Interval {
            lo: lowered(self.lo, new.lo, marks),
            hi: raised(self.hi, new.hi, marks),
        }
    }
}

// `old`, or the mark to which a lower `new` leads.
fn lowered(old: i64, new: i64, marks: &[i64]) -> i64
    requires { IsSorted int_cmp marks.now }
    ensures value { result ≡ (if int_lt new old then mark_below marks.now new else old) }
    ensures old { result ≤ℤ old }
    ensures new { result ≤ℤ new }
    ensures within { (m : ℤ) → Contains marks.now m → m ≤ℤ old → m ≤ℤ new → m ≤ℤ result }
    ensures mark { HasMarkBelow marks.now new → (result ≡ old) ⊎ Contains marks.now result }
{
    if new < old {
        mark_below(marks, new)
    } else {
        old
    }
}

// `old`, or the mark to which a higher `new` leads.
fn raised(old: i64, new: i64, marks: &[i64]) -> i64
    requires { IsSorted int_cmp marks.now }
    ensures value { result ≡ (if int_lt old new then mark_above marks.now new else old) }
    ensures old { old ≤ℤ result }
    ensures new { new ≤ℤ result }
    ensures within { (m : ℤ) → Contains marks.now m → old ≤ℤ m → new ≤ℤ m → result ≤ℤ m }
    ensures mark { HasMarkAbove marks.now new → (result ≡ old) ⊎ Contains marks.now result }
{
    if old < new {
        mark_above(marks, new)
    } else {
        old
    }
}

// The greatest mark that is at most `n`, or the least number of 64 bits.
fn mark_below(marks: &[i64], n: i64) -> i64
    requires { IsSorted int_cmp marks.now }
    ensures value { result ≡ mark_below marks.now n }
    ensures outside { result ≤ℤ n }
    ensures within { (m : ℤ) → Contains marks.now m → m ≤ℤ n → m ≤ℤ result }
    ensures mark { HasMarkBelow marks.now n → Contains marks.now result }
{
    let above = marks.partition_point(|m| *m <= n);
    if above == 0 {
        i64::MIN
    } else {
        marks[above - 1]
    }
}

// The least mark that is at least `n`, or the greatest number of 64 bits.
fn mark_above(marks: &[i64], n: i64) -> i64
    requires { IsSorted int_cmp marks.now }
    ensures value { result ≡ mark_above marks.now n }
    ensures outside { n ≤ℤ result }
    ensures within { (m : ℤ) → Contains marks.now m → n ≤ℤ m → result ≤ℤ m }
    ensures mark { HasMarkAbove marks.now n → Contains marks.now result }
{
    let first = marks.partition_point(|m| *m < n);
    if first < marks.len() {
        marks[first]
    } else {
        i64::MAX
    }
}

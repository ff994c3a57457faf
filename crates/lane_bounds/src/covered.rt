//! Whether intervals lie in others.

ghost use Rattle.std.specs.Prelude.{◌≡◌, ℕ, ◌<◌, ◌≤ℤ◌, ◌↔◌, ◌&&◌, int_le, length, IsTrue};
ghost use Rattle.lane_bounds.specs.Columns.{all_covered, at_place};

use crate::lanes::{LANES, four_covered};

/// Whether at each place the interval from `a_lo` to `a_hi` lies in that from `b_lo` to `b_hi`.
pub fn le_all(a_lo: &[i64], a_hi: &[i64], b_lo: &[i64], b_hi: &[i64]) -> bool
    requires a_hi { length a_hi.now ≡ length a_lo.now }
    requires b_lo { length b_lo.now ≡ length a_lo.now }
    requires b_hi { length b_hi.now ≡ length a_lo.now }
    ensures value { result ≡ all_covered a_lo.now a_hi.now b_lo.now b_hi.now }
    ensures places { IsTrue result ↔ ((k : ℕ) → k < length a_lo.now → (at_place b_lo.now k ≤ℤ at_place a_lo.now k) × (at_place a_hi.now k ≤ℤ at_place b_hi.now k)) }
{
    columns_covered(a_lo, a_hi, b_lo, b_hi)
}

// The same, told by the columns alone.
fn columns_covered(a_lo: &[i64], a_hi: &[i64], b_lo: &[i64], b_hi: &[i64]) -> bool
    requires a_hi { length a_hi.now ≡ length a_lo.now }
    requires b_lo { length b_lo.now ≡ length a_lo.now }
    requires b_hi { length b_hi.now ≡ length a_lo.now }
    ensures { result ≡ all_covered a_lo.now a_hi.now b_lo.now b_hi.now }
{
    let mut at = 0;
    while a_lo.len() - at >= LANES {
        if !four_covered(a_lo, a_hi, b_lo, b_hi, at) {
            return false;
        }
        at += LANES;
    }
    while at < a_lo.len() {
        if !one_covered(a_lo[at], a_hi[at], b_lo[at], b_hi[at]) {
            return false;
        }
        at += 1;
    }
    true
}

// The same for one place.
fn one_covered(a_lo: i64, a_hi: i64, b_lo: i64, b_hi: i64) -> bool
    ensures { result ≡ (int_le b_lo a_lo && int_le a_hi b_hi) }
{
    b_lo <= a_lo && a_hi <= b_hi
}

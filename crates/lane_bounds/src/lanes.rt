//! Four numbers at a time.

ghost use Rattle.std.specs.Prelude.{◌≡◌, ℕ, ◌+◌, ◌^◌, ◌<◌, ◌≤◌, length};
ghost use Rattle.std.specs.Int.{bit_at, int_min, int_max};
ghost use Rattle.std.specs.Simd.Lanes.{chunk, put_chunk, zip2};
ghost use Rattle.lane_bounds.specs.Columns.{IsFour, all_covered, at_place, bit_of};
ghost use Rattle.lane_bounds.specs.Comparisons.{holds_for_some};

use crate::cmp::Cmp;
use std::simd::i64x4;

/// How many places a vector holds.
pub(crate) const LANES: usize = 4;

// The four numbers from place `at` on.
fn four_at(column: &[i64], at: usize) -> i64x4
    requires { at + LANES ≤ length column.now }
    ensures lanes { result ≡ chunk at LANES column.now }
    ensures four { IsFour result }
{
    i64x4::from_array([column[at], column[at + 1], column[at + 2], column[at + 3]])
}

/// Whether at the four places from `at` on the interval from `a_lo` to `a_hi` lies in that from
/// `b_lo` to `b_hi`.
pub(crate) fn four_covered(
    a_lo: &[i64],
    a_hi: &[i64],
    b_lo: &[i64],
    b_hi: &[i64],
    at: usize,
) -> bool
    requires a_lo { at + LANES ≤ length a_lo.now }
    requires a_hi { at + LANES ≤ length a_hi.now }
    requires b_lo { at + LANES ≤ length b_lo.now }
    requires b_hi { at + LANES ≤ length b_hi.now }
    ensures { result ≡ all_covered (chunk at LANES a_lo.now) (chunk at LANES a_hi.now) (chunk at LANES b_lo.now) (chunk at LANES b_hi.now) }
{
    let low = four_at(b_lo, at).simd_le(four_at(a_lo, at));
    let high = four_at(a_hi, at).simd_le(four_at(b_hi, at));
    (low & high).all()
}

/// The lesser numbers at the four places from `at` on.
pub(crate) fn lower_four(x: &mut [i64], y: &[i64], at: usize)
    requires left { at + LANES ≤ length x.old }
    requires right { at + LANES ≤ length y.now }
    ensures { x.new ≡ put_chunk at x.old (zip2 int_min (chunk at LANES x.old) (chunk at LANES y.now)) }
{
    let least = four_at(x, at).simd_min(four_at(y, at));
    least.copy_to_slice(&mut x[at..]);
}

/// The greater numbers at the four places from `at` on.
pub(crate) fn raise_four(x: &mut [i64], y: &[i64], at: usize)
    requires left { at + LANES ≤ length x.old }
    requires right { at + LANES ≤ length y.now }
    ensures { x.new ≡ put_chunk at x.old (zip2 int_max (chunk at LANES x.old) (chunk at LANES y.now)) }
{
    let greatest = four_at(x, at).simd_max(four_at(y, at));
    greatest.copy_to_slice(&mut x[at..]);
}

/// At which of the four places from `at` on some number from `lo` to `hi` stands in the comparison
/// with `c`, as bits.
pub(crate) fn four_marks(lo: &[i64], hi: &[i64], at: usize, op: Cmp, c: i64) -> u64
    requires lo { at + LANES ≤ length lo.now }
    requires hi { at + LANES ≤ length hi.now }
    ensures small { result < 2 ^ LANES }
    ensures places { (j : ℕ) → j < LANES → bit_at result j ≡ bit_of (holds_for_some op c (at_place lo.now (at + j)) (at_place hi.now (at + j))) }
{
    let low = four_at(lo, at);
    let high = four_at(hi, at);
    let number = i64x4::splat(c);
    match op {
        Cmp::Lt => (low.simd_le(high) & low.simd_lt(number)).to_bitmask(),
        Cmp::Le => (low.simd_le(high) & low.simd_le(number)).to_bitmask(),
        Cmp::Gt => (low.simd_le(high) & number.simd_lt(high)).to_bitmask(),
        Cmp::Ge => (low.simd_le(high) & number.simd_le(high)).to_bitmask(),
        Cmp::Eq => (low.simd_le(number) & number.simd_le(high)).to_bitmask(),
        Cmp::Ne => (low.simd_le(high) & (low.simd_lt(number) | number.simd_lt(high))).to_bitmask(),
    }
}

//! Where a comparison with one number may hold.

ghost use Rattle.std.specs.Prelude.{◌≡◌, ℕ, ◌+◌, ◌^◌, ◌<◌, ◌≤◌, ◌↔◌, false, length, IsTrue, slice_index_or, nat_eq};
ghost use Rattle.std.specs.Int.{bit_at};
ghost use Rattle.std.specs.Simd.Lanes.{zip2};
ghost use Rattle.lane_bounds.specs.Columns.{at_place};
ghost use Rattle.lane_bounds.specs.Comparisons.{HoldsForSome, holds_for_some};

use crate::cmp::Cmp;
use crate::lanes::{LANES, four_marks};

/// Marks each place at which some number from `lo` to `hi` stands in the comparison with `c`.
pub fn may_hold(lo: &[i64], hi: &[i64], op: Cmp, c: i64, out: &mut [bool])
    requires hi { length hi.now ≡ length lo.now }
    requires out { length out.old ≡ length lo.now }
    ensures value { out.new ≡ zip2 (holds_for_some op c) lo.now hi.now }
    ensures places { (k : ℕ) → k < length lo.now → IsTrue (slice_index_or out.new k false) ↔ HoldsForSome op c (at_place lo.now k) (at_place hi.now k) }
{
    mark_places(lo, hi, op, c, out);
}

fn mark_places(lo: &[i64], hi: &[i64], op: Cmp, c: i64, out: &mut [bool])
    requires hi { length hi.now ≡ length lo.now }
    requires out { length out.old ≡ length lo.now }
    ensures { out.new ≡ zip2 (holds_for_some op c) lo.now hi.now }
{
    let mut at = 0;
    while lo.len() - at >= LANES {
        put_four(out, at, four_marks(lo, hi, at, op, c));
        at += LANES;
    }
    while at < lo.len() {
        out[at] = one_mark(lo[at], hi[at], op, c);
        at += 1;
    }
}

// Four marks for each number below 16: that of place j is bit j.
static MARKS: [[bool; 4]; 16] = [
    [false, false, false, false],
    [true, false, false, false],
    [false, true, false, false],
    [true, true, false, false],
    [false, false, true, false],
    [true, false, true, false],
    [false, true, true, false],
    [true, true, true, false],
    [false, false, false, true],
    [true, false, false, true],
    [false, true, false, true],
    [true, true, false, true],
    [false, false, true, true],
    [true, false, true, true],
    [false, true, true, true],
    [true, true, true, true],
];

// Writes four marks from place `at` on.
fn put_four(out: &mut [bool], at: usize, marks: u64)
    requires room { at + LANES ≤ length out.old }
    requires small { marks < 2 ^ LANES }
    ensures before { (k : ℕ) → k < at → slice_index_or out.new k false ≡ slice_index_or out.old k false }
    ensures here { (j : ℕ) → j < LANES → slice_index_or out.new (at + j) false ≡ nat_eq (bit_at marks j) 1 }
{
    let four = MARKS[marks as usize];
    out[at] = four[0];
    out[at + 1] = four[1];
    out[at + 2] = four[2];
    out[at + 3] = four[3];
}

fn one_mark(lo: i64, hi: i64, op: Cmp, c: i64) -> bool
    ensures { result ≡ holds_for_some op c lo hi }
{
    match op {
        Cmp::Lt => lo <= hi && lo < c,
        Cmp::Le => lo <= hi && lo <= c,
        Cmp::Gt => lo <= hi && c < hi,
        Cmp::Ge => lo <= hi && c <= hi,
        Cmp::Eq => lo <= c && c <= hi,
        Cmp::Ne => lo <= hi && (lo < c || c < hi),
    }
}

//! The least intervals that cover two.

ghost use Rattle.std.specs.Prelude.{◌≡◌, length};
ghost use Rattle.std.specs.Int.{int_min, int_max};
ghost use Rattle.std.specs.Simd.Lanes.{zip2};

use crate::lanes::{LANES, lower_four, raise_four};

/// Lets the interval from `a_lo` to `a_hi` at each place grow until it covers that from `b_lo` to
/// `b_hi`, too.
pub fn join_into(a_lo: &mut [i64], a_hi: &mut [i64], b_lo: &[i64], b_hi: &[i64])
    requires a_hi { length a_hi.old ≡ length a_lo.old }
    requires b_lo { length b_lo.now ≡ length a_lo.old }
    requires b_hi { length b_hi.now ≡ length a_lo.old }
    ensures lo { a_lo.new ≡ zip2 int_min a_lo.old b_lo.now }
    ensures hi { a_hi.new ≡ zip2 int_max a_hi.old b_hi.now }
{
    lower_to(a_lo, b_lo);
    raise_to(a_hi, b_hi);
}

// The lesser number at each place.
fn lower_to(x: &mut [i64], y: &[i64])
    requires { length y.now ≡ length x.old }
    ensures { x.new ≡ zip2 int_min x.old y.now }
{
    let mut at = 0;
    while x.len() - at >= LANES {
        lower_four(x, y, at);
        at += LANES;
    }
    while at < x.len() {
        x[at] = x[at].min(y[at]);
        at += 1;
    }
}

// The greater number at each place.
fn raise_to(x: &mut [i64], y: &[i64])
    requires { length y.now ≡ length x.old }
    ensures { x.new ≡ zip2 int_max x.old y.now }
{
    let mut at = 0;
    while x.len() - at >= LANES {
        raise_four(x, y, at);
        at += LANES;
    }
    while at < x.len() {
        x[at] = x[at].max(y[at]);
        at += 1;
    }
}

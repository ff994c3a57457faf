//! What the operators of the language make of intervals.
ghost use Rattle.std.specs.Prelude.{◌≡◌, Some, None, option_map, pos};
ghost use Rattle.interval_dom.specs.Bounds.{hull};
ghost use Rattle.state_dom.specs.Operators.{interval_width_of, converted_to, zero_alone, one_alone, is_surely_zero, lacks_zero, truth_of, may_be, unary_interval, binary_interval, joined_truth, conjunction, disjunction};

use gob_tree::{BinOp, UnOp, Width};
use interval_dom::{Cmp, Interval};

/// The same width, for intervals.
pub fn interval_width(w: Width) -> interval_dom::Width
    ensures { result ≡ interval_width_of w }
{
    match w {
        Width::W32 => interval_dom::Width::W32,
        Width::W64 => interval_dom::Width::W64,
    }
}

/// The interval as it goes to a slot, a global or a parameter of this width: itself where it lies
/// in the range of the width, else the whole range (C17, 6.3.1.3, where a conversion wraps).
pub fn converted(v: Interval, w: Width) -> Interval
    ensures { result ≡ converted_to w v }
{
    let full = Interval::full(interval_width(w));
    if v.le(full) { v } else { full }
}

/// The interval of a prefix operator on a number of this width (C17, 6.5.3.3).
pub fn unary_interval(op: UnOp, w: Width, v: Interval) -> Interval
    ensures { result ≡ unary_interval op w v }
{
    match op {
        UnOp::Neg => v.neg(interval_width(w)),
        UnOp::Not => v.compare(Cmp::Eq, one_number(0)),
    }
}

/// The interval of a binary operator whose operands have these intervals, if values at all; `w` is
/// the wider of the operands' widths. `None` where the result has no value: an operand that is
/// needed has none, or zero is the only divisor (C17, 6.5.5 to 6.5.14).
pub fn binary_interval(
    op: BinOp,
    w: Width,
    l: Option<Interval>,
    r: Option<Interval>,
) -> Option<Interval>
    ensures { result ≡ binary_interval op w l r }
{
    match op {
        BinOp::And => conjunction(l?, r),
        BinOp::Or => disjunction(l?, r),
        _ => of_values(op, w, l?, r?),
    }
}

fn of_values(op: BinOp, w: Width, l: Interval, r: Interval) -> Option<Interval>
    ensures { result ≡ binary_interval op w (Some l) (Some r) }
{
    match op {
        BinOp::Add => Some(l.add(r, interval_width(w))),
        BinOp::Sub => Some(l.sub(r, interval_width(w))),
        BinOp::Mul => Some(l.mul(r, interval_width(w))),
        BinOp::Div => l.div(r, interval_width(w)),
        BinOp::Rem => l.rem(r, interval_width(w)),
        BinOp::Lt => Some(l.compare(Cmp::Lt, r)),
        BinOp::Le => Some(l.compare(Cmp::Le, r)),
        BinOp::Gt => Some(l.compare(Cmp::Gt, r)),
        BinOp::Ge => Some(l.compare(Cmp::Ge, r)),
        BinOp::Eq => Some(l.compare(Cmp::Eq, r)),
        BinOp::Ne => Some(l.compare(Cmp::Ne, r)),
        BinOp::And => conjunction(l, Some(r)),
        BinOp::Or => disjunction(l, Some(r)),
    }
}

fn conjunction(l: Interval, r: Option<Interval>) -> Option<Interval>
    ensures { result ≡ conjunction l r }
{
    if is_surely_zero(l) {
        Some(one_number(0))
    } else if lacks_zero(l) {
        truth_if_any(r)
    } else {
        Some(joined_truth(one_number(0), r))
    }
}

fn disjunction(l: Interval, r: Option<Interval>) -> Option<Interval>
    ensures { result ≡ disjunction l r }
{
    if lacks_zero(l) {
        Some(one_number(1))
    } else if is_surely_zero(l) {
        truth_if_any(r)
    } else {
        Some(joined_truth(one_number(1), r))
    }
}

fn joined_truth(decided: Interval, r: Option<Interval>) -> Interval
    ensures { result ≡ joined_truth decided r }
{
    match r {
        Some(r) => decided.join(truth_of(r)),
        None => decided,
    }
}

fn truth_if_any(r: Option<Interval>) -> Option<Interval>
    ensures { result ≡ option_map truth_of r }
{
    match r {
        Some(r) => Some(truth_of(r)),
        None => None,
    }
}

fn truth_of(v: Interval) -> Interval
    ensures { result ≡ truth_of v }
{
    v.compare(Cmp::Ne, one_number(0))
}

/// Whether some number of the interval, if there is one, is other than 0, or is 0.
pub fn may_be(wanted: bool, v: &Option<Interval>) -> bool
    ensures { result ≡ may_be wanted v.now }
{
    match v {
        None => false,
        Some(v) => may_have_truth(wanted, *v),
    }
}

fn may_have_truth(wanted: bool, v: Interval) -> bool
    ensures { result ≡ may_be wanted (Some v) }
{
    if wanted {
        !is_surely_zero(v)
    } else {
        !lacks_zero(v)
    }
}

fn is_surely_zero(v: Interval) -> bool
    ensures { result ≡ is_surely_zero v }
{
    v.hi() <= 0 && 0 <= v.lo()
}

fn lacks_zero(v: Interval) -> bool
    ensures { result ≡ lacks_zero v }
{
    v.hi() < 0 || 0 < v.lo()
}

/// The interval of one number.
pub(crate) fn one_number(n: i64) -> Interval
    ensures { result ≡ record { lo = n; hi = n } }
{
    match Interval::new(n, n) {
        Some(one) => one,
        None => unreachable!(),
    }
}

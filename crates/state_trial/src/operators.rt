use crate::build_up::{Ends, INT, LEAST, ends_of, interval};
use gob_tree::{BinOp, UnOp, Width};
use interval_dom::Interval;
use state_dom::{binary_interval, interval_width, may_be, unary_interval};

#[test]
fn prefixes(rt: HostRuntime) {
    for (op, width, v, wanted) in [
        (UnOp::Neg, Width::W32, (0, 10), (-10, 0)),
        (UnOp::Neg, Width::W32, (LEAST, LEAST), INT),
        (
            UnOp::Neg,
            Width::W64,
            (LEAST, LEAST),
            (2147483648, 2147483648),
        ),
        (UnOp::Not, Width::W32, (0, 10), (0, 1)),
        (UnOp::Not, Width::W32, (5, 8), (0, 0)),
    ] {
        let found = ends_of(unary_interval(op, width, interval(v)));
        assert!(rt; found == wanted);
    }
}

/// The interval of a logical operator whose right operand has no value.
fn without_right(op: BinOp, left: Ends) -> Option<Ends> {
    match binary_interval(op, Width::W32, Some(interval(left)), None) {
        Some(v) => Some(ends_of(v)),
        None => None,
    }
}

#[test]
fn the_left_operand_may_decide_alone(rt: HostRuntime) {
    for (op, left, wanted) in [
        (BinOp::And, (0, 0), Some((0, 0))),
        (BinOp::And, (0, 10), Some((0, 0))),
        (BinOp::And, (5, 8), None),
        (BinOp::Or, (0, 0), None),
        (BinOp::Or, (0, 10), Some((1, 1))),
        (BinOp::Or, (5, 8), Some((1, 1))),
    ] {
        assert!(rt; without_right(op, left) == wanted);
    }
}

#[test]
fn truths_that_may_be(rt: HostRuntime) {
    for (v, yes, no) in [
        ((0, 10), true, true),
        ((5, 8), true, false),
        ((0, 0), false, true),
    ] {
        let v = Some(interval(v));
        assert!(rt; may_be(true, &v) == yes);
        assert!(rt; may_be(false, &v) == no);
    }
    assert!(rt; !may_be(true, &None));
}

#[test]
fn both_widths(rt: HostRuntime) {
    let int = Interval::full(interval_width(Width::W32));
    let long = Interval::full(interval_width(Width::W64));
    assert!(rt; ends_of(int) == INT);
    assert!(rt; ends_of(long) == (i64::MIN, i64::MAX));
}

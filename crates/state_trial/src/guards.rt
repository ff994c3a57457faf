ghost use Rattle.std.specs.Prelude.{IsTrue};
ghost use Rattle.gob_tree.specs.Formed.{is_plain};

use crate::build_up::{Ends, INT, binary, both, local, two_slots, with, x_and_y};
use gob_tree::{BinOp, Boxed, Expr, Memory, UnOp, Width};
use state_dom::guard;
use std::alloc::Global;
use std::test::Fail;

/// What a guard leaves of x and y.
type Left = Option<(Ends, Ends)>;

fn left(alloc: Global, e: &Expr, wanted: bool, x: Ends, y: Ends) -> Result<Left, Memory>
    requires { IsTrue (is_plain 2 e.now) }
{
    let slots = two_slots(alloc, Width::W32)?;
    let mut state = with(alloc, x, y)?;
    guard(alloc, &mut state, e, wanted, slots.as_slice())?;
    Ok(both(&state))
}

/// What `x op y` leaves.
fn compared(alloc: Global, op: BinOp, wanted: bool, x: Ends, y: Ends) -> Result<Left, Memory> {
    let e = x_and_y(alloc, op)?;
    left(alloc, &e, wanted, x, y)
}

#[test]
fn orders_narrow_both_sides(rt: HostRuntime) -> Result<(), Fail> {
    for (op, wanted, x, result) in [
        (BinOp::Lt, true, (0, 10), Some(((0, 7), (5, 8)))),
        (BinOp::Lt, false, (0, 10), Some(((5, 10), (5, 8)))),
        (BinOp::Lt, true, (8, 9), None),
        (BinOp::Gt, true, (0, 10), Some(((6, 10), (5, 8)))),
        (BinOp::Le, true, (8, 9), Some(((8, 8), (8, 8)))),
    ] {
        let found = compared(rt.alloc(), op, wanted, x, (5, 8))?;
        assert!(rt; found == result);
    }
    Ok(())
}

#[test]
fn equal_numbers_and_others(rt: HostRuntime) -> Result<(), Fail> {
    for (op, x, y, result) in [
        (BinOp::Eq, (0, 1), (2, 3), None),
        (BinOp::Eq, (0, 10), (5, 20), Some(((5, 10), (5, 10)))),
        (BinOp::Ne, (0, 10), (10, 10), Some(((0, 9), (10, 10)))),
    ] {
        let found = compared(rt.alloc(), op, true, x, y)?;
        assert!(rt; found == result);
    }
    Ok(())
}

/// What `x < x` leaves of x.
fn below_itself(alloc: Global, x: Ends) -> Result<Left, Memory> {
    let e = binary(alloc, BinOp::Lt, local(false), local(false))?;
    left(alloc, &e, true, x, (0, 0))
}

// x is below 10, and then above the least that is left of it
#[test]
fn a_number_is_not_below_itself(rt: HostRuntime) -> Result<(), Fail> {
    for (x, result) in [((0, 10), Some(((1, 9), (0, 0)))), ((4, 4), None)] {
        let found = below_itself(rt.alloc(), x)?;
        assert!(rt; found == result);
    }
    Ok(())
}

/// What x, or with `turned` `!x`, leaves of x.
fn truth(alloc: Global, turned: bool, wanted: bool, x: Ends) -> Result<Left, Memory> {
    if turned {
        let not = Expr::Unary(UnOp::Not, Boxed::new(alloc, local(false))?);
        left(alloc, &not, wanted, x, (0, 0))
    } else {
        left(alloc, &local(false), wanted, x, (0, 0))
    }
}

#[test]
fn a_number_is_a_condition(rt: HostRuntime) -> Result<(), Fail> {
    for (turned, wanted, x, result) in [
        (false, true, (0, 10), Some(((1, 10), (0, 0)))),
        (false, false, (0, 10), Some(((0, 0), (0, 0)))),
        (false, false, (5, 8), None),
        (true, true, (0, 10), Some(((0, 0), (0, 0)))),
        (true, false, (0, 10), Some(((1, 10), (0, 0)))),
    ] {
        let found = truth(rt.alloc(), turned, wanted, x)?;
        assert!(rt; found == result);
    }
    Ok(())
}

/// What `x < y op y < x` leaves.
fn of_two_parts(alloc: Global, op: BinOp, wanted: bool) -> Result<Left, Memory> {
    let below = x_and_y(alloc, BinOp::Lt)?;
    let above = binary(alloc, BinOp::Lt, local(true), local(false))?;
    let e = binary(alloc, op, below, above)?;
    left(alloc, &e, wanted, (0, 10), (5, 8))
}

#[test]
fn conditions_of_two_parts(rt: HostRuntime) -> Result<(), Fail> {
    for (op, wanted, x, y) in [
        (BinOp::And, true, (6, 7), (5, 6)),
        (BinOp::And, false, (0, 10), (5, 8)),
        (BinOp::Or, true, (0, 10), (5, 8)),
        (BinOp::Or, false, (5, 8), (5, 8)),
    ] {
        let found = of_two_parts(rt.alloc(), op, wanted)?;
        assert!(rt; found == Some((x, y)));
    }
    Ok(())
}

// x / 0 has no value, so neither truth
#[test]
fn no_value_leaves_nothing(rt: HostRuntime) -> Result<(), Fail> {
    for wanted in [true, false] {
        let found = compared(rt.alloc(), BinOp::Div, wanted, INT, (0, 0))?;
        assert!(rt; found.is_none());
    }
    Ok(())
}

use crate::build_up::{
    Ends, GREATEST, INT, LEAST, both, ends_of, interval, two_slots, with, x_and_y,
};
use gob_tree::{BinOp, Memory, Width};
use state_dom::{assign, converted, eval, slot_width};
use std::alloc::Global;
use std::test::Fail;

/// The interval of `x op y` where both have this width.
fn value(alloc: Global, op: BinOp, width: Width, x: Ends, y: Ends) -> Result<Option<Ends>, Memory> {
    let slots = two_slots(alloc, width)?;
    let state = with(alloc, x, y)?;
    let e = x_and_y(alloc, op)?;
    match eval(&state, &e, slots.as_slice()) {
        Some(v) => Ok(Some(ends_of(v))),
        None => Ok(None),
    }
}

#[test]
fn quotients_of_ints(rt: HostRuntime) -> Result<(), Fail> {
    for (x, y, wanted) in [
        ((10, 10), INT, Some((-10, 10))),
        ((-7, 7), (2, 2), Some((-3, 3))),
        ((LEAST, LEAST), (-1, -1), Some(INT)),
        ((0, 10), (0, 0), None),
    ] {
        let found = value(rt.alloc(), BinOp::Div, Width::W32, x, y)?;
        assert!(rt; found == wanted);
    }
    Ok(())
}

#[test]
fn remainders_of_ints(rt: HostRuntime) -> Result<(), Fail> {
    for (x, y, wanted) in [
        ((-7, 7), (3, 3), Some((-2, 2))),
        ((0, 1), (5, 5), Some((0, 1))),
        ((LEAST, LEAST), (-1, -1), Some((0, 0))),
        ((0, 10), (0, 0), None),
    ] {
        let found = value(rt.alloc(), BinOp::Rem, Width::W32, x, y)?;
        assert!(rt; found == wanted);
    }
    Ok(())
}

// the same sums at both widths
#[test]
fn longs_have_room(rt: HostRuntime) -> Result<(), Fail> {
    for (width, x, wanted) in [
        (Width::W32, (0, 10), (1, 11)),
        (Width::W32, (GREATEST, GREATEST), INT),
        (Width::W64, (GREATEST, GREATEST), (2147483648, 2147483648)),
    ] {
        let found = value(rt.alloc(), BinOp::Add, width, x, (1, 1))?;
        assert!(rt; found == Some(wanted));
    }
    Ok(())
}

/// The intervals of x and y after a store into x, which is an int.
fn stored(alloc: Global, v: Ends) -> Result<Option<(Ends, Ends)>, Memory> {
    let mut state = with(alloc, (0, 10), (5, 8))?;
    assign(&mut state, 0, converted(interval(v), Width::W32));
    Ok(both(&state))
}

#[test]
fn stores_are_converted(rt: HostRuntime) -> Result<(), Fail> {
    for (v, wanted) in [((1, 2), (1, 2)), ((1, 4294967296), INT)] {
        let found = stored(rt.alloc(), v)?;
        assert!(rt; found == Some((wanted, (5, 8))));
    }
    Ok(())
}

#[test]
fn a_slot_that_is_not_there_is_an_int(rt: HostRuntime) -> Result<(), Fail> {
    let longs = two_slots(rt.alloc(), Width::W64)?;
    assert!(rt; slot_width(longs.as_slice(), 1) == Width::W64);
    assert!(rt; slot_width(longs.as_slice(), 2) == Width::W32);
    Ok(())
}

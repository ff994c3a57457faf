//! Small states and expressions over x, in slot 0, and y, in slot 1.
ghost use Rattle.std.specs.Prelude.{◌≡◌, IsTrue, IfOk, length, true};
ghost use Rattle.gob_tree.specs.Formed.{is_plain};
ghost use Rattle.state_dom.specs.StateValue.{is_reached, room_of};

use gob_tree::{BinOp, Boxed, Expr, Memory, Seq, Slot, Text, Width};
use interval_dom::Interval;
use state_dom::{State, assign};
use std::alloc::Global;

/// The ends of an interval.
pub(crate) type Ends = (i64, i64);

pub(crate) const LEAST: i64 = -2147483648;

pub(crate) const GREATEST: i64 = 2147483647;

/// All ints.
pub(crate) const INT: Ends = (LEAST, GREATEST);

/// The interval with these ends, of which the second is not below the first.
pub(crate) fn interval(ends: Ends) -> Interval {
    Interval::new(ends.0, ends.1).unwrap_or(Interval::full(interval_dom::Width::W64))
}

pub(crate) fn ends_of(v: Interval) -> Ends {
    (v.lo(), v.hi())
}

/// The slots of x and y, both of this width.
pub(crate) fn two_slots(alloc: Global, width: Width) -> Result<Seq<Slot>, Memory>
    ensures { IfOk result (λ slots. length slots ≡ 2) }
{
    let mut slots = Seq::new(alloc);
    slots.push(Slot {
        name: Text::of(alloc, b"x")?,
        width,
    })?;
    slots.push(Slot {
        name: Text::of(alloc, b"y")?,
        width,
    })?;
    Ok(slots)
}

/// A state of x and y with these intervals, and no mutex held.
pub(crate) fn with(alloc: Global, x: Ends, y: Ends) -> Result<State, Memory>
    ensures reached { IfOk result (λ s. is_reached s ≡ true) }
    ensures room { IfOk result (λ s. room_of s ≡ 2) }
{
    let mut state = State::start(alloc, 2)?;
    assign(&mut state, 0, interval(x));
    assign(&mut state, 1, interval(y));
    Ok(state)
}

/// x, or where `second` y.
pub(crate) fn local(second: bool) -> Expr
    ensures { IsTrue (is_plain 2 result) }
{
    if second {
        Expr::Local(1)
    } else {
        Expr::Local(0)
    }
}

pub(crate) fn binary(alloc: Global, op: BinOp, a: Expr, b: Expr) -> Result<Expr, Memory>
    requires left { IsTrue (is_plain 2 a) }
    requires right { IsTrue (is_plain 2 b) }
    ensures { IfOk result (λ e. IsTrue (is_plain 2 e)) }
{
    let left = Boxed::new(alloc, a)?;
    let right = Boxed::new(alloc, b)?;
    Ok(Expr::Binary(op, left, right))
}

/// `x op y`.
pub(crate) fn x_and_y(alloc: Global, op: BinOp) -> Result<Expr, Memory>
    ensures { IfOk result (λ e. IsTrue (is_plain 2 e)) }
{
    binary(alloc, op, local(false), local(true))
}

/// The intervals of x and y, or None at Bottom.
pub(crate) fn both(state: &State) -> Option<(Ends, Ends)>
    requires { room_of state.now ≡ 2 }
{
    if state.is_bottom() {
        None
    } else {
        Some((ends_of(state.slot(0)), ends_of(state.slot(1))))
    }
}

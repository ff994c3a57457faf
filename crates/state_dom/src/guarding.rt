//! What a state becomes where an expression is to be true or false.
ghost use Rattle.std.specs.Prelude.{◌≡◌, ◌<◌, IsTrue, IsSome, OnOk, OnErr, Some, length, true, false, option_and_then, slice_get, if◌then◌else◌};
ghost use Rattle.gob_tree.specs.Formed.{is_plain};
ghost use Rattle.interval_dom.specs.Comparisons.{refined};
ghost use Rattle.state_dom.specs.Evaluation.{reading_of, guarded_by, refined_by, compared, compared_by, as_wanted, value_in};
ghost use Rattle.state_dom.specs.Operators.{may_be};
ghost use Rattle.state_dom.specs.Splits.{splits};
ghost use Rattle.state_dom.specs.StateValue.{Bottom, is_reached, slots_of, room_of};

use crate::evaluation::eval;
use crate::operators::{may_be, one_number};
use crate::state::State;
use gob_tree::{BinOp, Expr, Memory, Slot, UnOp};
use interval_dom::{Cmp, Interval};
use std::alloc::Global;
use std::mem::swap;

/// Keeps of a state what is left where the expression, of numbers, locals and operators, is true
/// (`wanted`), or false: Bottom where it can't be. Only `||` that is to be true and `&&` that is to
/// be false take memory, and that before the state changes; `Memory` is want of it, and leaves the
/// state as it was.
pub fn guard(
    alloc: Global,
    state: &mut State,
    e: &Expr,
    wanted: bool,
    slots: &[Slot],
) -> Result<(), Memory>
    requires room { room_of state.old ≡ length slots.now }
    requires plain { IsTrue (is_plain (length slots.now) e.now) }
    ensures done { OnOk result (state.new ≡ guarded_by slots.now e.now wanted state.old) }
    ensures room { room_of state.new ≡ room_of state.old }
    ensures kept { OnErr result (state.new ≡ state.old) }
{
    if splits(e, wanted) {
        let mut next = state.copy(alloc)?;
        refine(alloc, &mut next, e, wanted, slots)?;
        state.set_to(&next);
        Ok(())
    } else {
        refine(alloc, state, e, wanted, slots)
    }
}

/// Whether a guard joins two states on its way.
fn splits(e: &Expr, wanted: bool) -> bool
    ensures { result ≡ splits e.now wanted }
{
    match e {
        Expr::Unary(UnOp::Not, a) => splits(a.get(), !wanted),
        Expr::Binary(op, a, b) => {
            let left = a.get();
            let right = b.get();
            match *op {
                BinOp::And => !wanted || splits(left, true) || splits(right, true),
                BinOp::Or => wanted || splits(left, false) || splits(right, false),
                _ => false,
            }
        }
        _ => false,
    }
}

/// Keeps of a state what is left where the expression is `wanted`. After `Memory`, which comes only
/// where states are joined, the state has no meaning.
fn refine(
    alloc: Global,
    state: &mut State,
    e: &Expr,
    wanted: bool,
    slots: &[Slot],
) -> Result<(), Memory>
    requires room { room_of state.old ≡ length slots.now }
    requires plain { IsTrue (is_plain (length slots.now) e.now) }
    ensures done { OnOk result (state.new ≡ guarded_by slots.now e.now wanted state.old) }
    ensures room { OnOk result (room_of state.new ≡ length slots.now) }
    ensures lone { OnErr result (splits e.now wanted ≡ true) }
{
    if !may_be(wanted, &value_in(state, e, slots)) {
        state.become_bottom();
        return Ok(());
    }
    match e {
        Expr::Local(x) => {
            refine_local(state, *x, as_wanted(wanted, Cmp::Ne), Some(one_number(0)));
            Ok(())
        }
        Expr::Unary(UnOp::Not, a) => refine(alloc, state, a.get(), !wanted, slots),
        Expr::Binary(op, a, b) => {
            let left = a.get();
            let right = b.get();
            match *op {
                BinOp::And => {
                    if wanted {
                        refine(alloc, state, left, true, slots)?;
                        refine(alloc, state, right, true, slots)?;
                        Ok(())
                    } else {
                        let mut other = state.copy(alloc)?;
                        refine_both(alloc, state, &mut other, left, slots)?;
                        refine(alloc, state, right, false, slots)?;
                        other.join_into(state);
                        state.set_to(&other);
                        Ok(())
                    }
                }
                BinOp::Or => {
                    if wanted {
                        let mut other = state.copy(alloc)?;
                        refine_both(alloc, state, &mut other, left, slots)?;
                        refine(alloc, &mut other, right, true, slots)?;
                        state.join_into(&other);
                        Ok(())
                    } else {
                        refine(alloc, state, left, false, slots)?;
                        refine(alloc, state, right, false, slots)?;
                        Ok(())
                    }
                }
                _ => {
                    compare_by(state, *op, wanted, left, right, slots);
                    Ok(())
                }
            }
        }
        _ => Ok(()),
    }
}

/// The same for both truths at once: of the state in `yes`, what is left where the expression is
/// true stays in `yes`, and what is left where it is false goes to `no`.
fn refine_both(
    alloc: Global,
    yes: &mut State,
    no: &mut State,
    e: &Expr,
    slots: &[Slot],
) -> Result<(), Memory>
    requires room { room_of yes.old ≡ length slots.now }
    requires other_room { room_of no.old ≡ length slots.now }
    requires plain { IsTrue (is_plain (length slots.now) e.now) }
    ensures yes { OnOk result (yes.new ≡ guarded_by slots.now e.now true yes.old) }
    ensures no { OnOk result (no.new ≡ guarded_by slots.now e.now false yes.old) }
    ensures room { OnOk result (room_of yes.new ≡ length slots.now) }
    ensures other_room { OnOk result (room_of no.new ≡ length slots.now) }
{
    let value = value_in(yes, e, slots);
    match e {
        Expr::Unary(UnOp::Not, a) => {
            refine_both(alloc, yes, no, a.get(), slots)?;
            swap(yes, no);
            keep_possible(yes, no, &value);
            Ok(())
        }
        Expr::Binary(op, a, b) => {
            let left = a.get();
            let right = b.get();
            match *op {
                BinOp::And => {
                    let mut other = yes.copy(alloc)?;
                    refine_both(alloc, yes, no, left, slots)?;
                    refine_both(alloc, yes, &mut other, right, slots)?;
                    no.join_into(&other);
                    keep_possible(yes, no, &value);
                    Ok(())
                }
                BinOp::Or => {
                    let mut other = yes.copy(alloc)?;
                    refine_both(alloc, yes, no, left, slots)?;
                    refine_both(alloc, no, &mut other, right, slots)?;
                    yes.join_into(no);
                    no.set_to(&other);
                    keep_possible(yes, no, &value);
                    Ok(())
                }
                _ => {
                    no.set_to(yes);
                    compare_by(yes, *op, true, left, right, slots);
                    compare_by(no, *op, false, left, right, slots);
                    keep_possible(yes, no, &value);
                    Ok(())
                }
            }
        }
        Expr::Local(x) => {
            no.set_to(yes);
            refine_local(yes, *x, Cmp::Ne, Some(one_number(0)));
            refine_local(no, *x, Cmp::Eq, Some(one_number(0)));
            keep_possible(yes, no, &value);
            Ok(())
        }
        _ => {
            no.set_to(yes);
            keep_possible(yes, no, &value);
            Ok(())
        }
    }
}

/// Bottom in place of each state whose truth the expression can't have.
fn keep_possible(yes: &mut State, no: &mut State, value: &Option<Interval>)
    ensures yes { yes.new ≡ (if may_be true value.now then yes.old else Bottom (room_of yes.old)) }
    ensures no { no.new ≡ (if may_be false value.now then no.old else Bottom (room_of no.old)) }
    ensures room { room_of yes.new ≡ room_of yes.old }
    ensures other_room { room_of no.new ≡ room_of no.old }
{
    keep_if(yes, may_be(true, value));
    keep_if(no, may_be(false, value));
}

fn keep_if(state: &mut State, possible: bool)
    ensures value { state.new ≡ (if possible then state.old else Bottom (room_of state.old)) }
    ensures room { room_of state.new ≡ room_of state.old }
{
    if !possible {
        state.become_bottom();
    }
}

/// The interval of an expression in a state; none from Bottom.
fn value_in(state: &State, e: &Expr, slots: &[Slot]) -> Option<Interval>
    requires room { room_of state.now ≡ length slots.now }
    requires plain { IsTrue (is_plain (length slots.now) e.now) }
    ensures { result ≡ value_in (reading_of slots.now e.now).interval state.now }
{
    if state.is_bottom() {
        None
    } else {
        eval(state, e, slots)
    }
}

/// A slot, where it stands in the comparison with a number of `other`.
fn refine_local(state: &mut State, x: u16, op: Cmp, other: Option<Interval>)
    ensures value { state.new ≡ refined_by op (Some x) other state.old }
    ensures room { room_of state.new ≡ room_of state.old }
{
    match left_of(state, x, op, other) {
        Some(left) => state.set_slot(x, left),
        None => state.become_bottom(),
    }
}

/// What is left of a slot's interval.
fn left_of(state: &State, x: u16, op: Cmp, other: Option<Interval>) -> Option<Interval>
    ensures value { result ≡ option_and_then (λ v. option_and_then (refined op v) other) (slice_get (slots_of state.now) x) }
    ensures reached { IsSome result → is_reached state.now ≡ true }
    ensures in_range { IsSome result → x < room_of state.now }
{
    if state.is_bottom() || x as usize >= state.room() {
        return None;
    }
    state.slot(x).refine(op, other?)
}

/// An operand that is a local, where it stands in the comparison with a number of `other`.
fn refine_operand(state: &mut State, e: &Expr, op: Cmp, other: Option<Interval>, slots: &[Slot])
    ensures value { state.new ≡ refined_by op (reading_of slots.now e.now).local other state.old }
    ensures room { room_of state.new ≡ room_of state.old }
{
    if let Expr::Local(x) = e {
        refine_local(state, *x, op, other);
    }
}

/// The operands of a comparison, the left one first.
fn compare(state: &mut State, op: Cmp, a: &Expr, b: &Expr, slots: &[Slot])
    requires room { room_of state.old ≡ length slots.now }
    requires left { IsTrue (is_plain (length slots.now) a.now) }
    requires right { IsTrue (is_plain (length slots.now) b.now) }
    ensures value { state.new ≡ compared op (reading_of slots.now a.now) (reading_of slots.now b.now) state.old }
    ensures room { room_of state.new ≡ room_of state.old }
{
    let right = value_in(state, b, slots);
    refine_operand(state, a, op, right, slots);
    let left = value_in(state, a, slots);
    refine_operand(state, b, op.turned(), left, slots);
}

/// A comparison that is wanted or not; any other operator on numbers refines nothing.
fn compare_by(state: &mut State, op: BinOp, wanted: bool, a: &Expr, b: &Expr, slots: &[Slot])
    requires room { room_of state.old ≡ length slots.now }
    requires left { IsTrue (is_plain (length slots.now) a.now) }
    requires right { IsTrue (is_plain (length slots.now) b.now) }
    ensures value { state.new ≡ compared_by op (reading_of slots.now a.now) (reading_of slots.now b.now) wanted state.old }
    ensures room { room_of state.new ≡ room_of state.old }
{
    match op {
        BinOp::Lt => compare(state, as_wanted(wanted, Cmp::Lt), a, b, slots),
        BinOp::Le => compare(state, as_wanted(wanted, Cmp::Le), a, b, slots),
        BinOp::Gt => compare(state, as_wanted(wanted, Cmp::Gt), a, b, slots),
        BinOp::Ge => compare(state, as_wanted(wanted, Cmp::Ge), a, b, slots),
        BinOp::Eq => compare(state, as_wanted(wanted, Cmp::Eq), a, b, slots),
        BinOp::Ne => compare(state, as_wanted(wanted, Cmp::Ne), a, b, slots),
        _ => {}
    }
}

fn as_wanted(wanted: bool, op: Cmp) -> Cmp
    ensures { result ≡ as_wanted wanted op }
{
    if wanted { op } else { op.opposite() }
}

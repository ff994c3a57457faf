//! The interval of an expression in a state.
ghost use Rattle.std.specs.Prelude.{◌≡◌, ◌<◌, IsTrue, length, option_map, slice_set, true};
ghost use Rattle.gob_tree.specs.Formed.{is_plain};
ghost use Rattle.c_meaning.specs.Demand.{slot_width, unary_width, binary_width, wider};
ghost use Rattle.state_dom.specs.Operators.{unary_interval, binary_interval};
ghost use Rattle.state_dom.specs.Evaluation.{reading_of, interval_of};
ghost use Rattle.state_dom.specs.StateValue.{Reached, is_reached, slots_of, locks_of, room_of};

use crate::operators::{binary_interval, one_number, unary_interval};
use crate::state::State;
use gob_tree::{BinOp, Expr, Slot, UnOp, Width};
use interval_dom::Interval;

/// The interval of an expression of numbers, locals and operators, in a state that isn't Bottom;
/// `None` exactly where it has no value.
pub fn eval(state: &State, e: &Expr, slots: &[Slot]) -> Option<Interval>
    requires reached { is_reached state.now ≡ true }
    requires room { room_of state.now ≡ length slots.now }
    requires plain { IsTrue (is_plain (length slots.now) e.now) }
    ensures { result ≡ interval_of slots.now (slots_of state.now) e.now }
{
    evaluate(state, e, slots).value
}

#[derive(Clone, Copy)]
struct Evaluated {
    width: Width,
    value: Option<Interval>,
}

fn evaluate(state: &State, e: &Expr, slots: &[Slot]) -> Evaluated
    requires reached { is_reached state.now ≡ true }
    requires room { room_of state.now ≡ length slots.now }
    requires plain { IsTrue (is_plain (length slots.now) e.now) }
    ensures width { result.width ≡ (reading_of slots.now e.now).width }
    ensures value { result.value ≡ (reading_of slots.now e.now).interval (slots_of state.now) }
{
    match e {
        Expr::Number(n, w) => Evaluated {
            width: *w,
            value: Some(one_number(*n)),
        },
        Expr::Local(x) => Evaluated {
            width: slot_width(slots, *x),
            value: Some(state.slot(*x)),
        },
        Expr::Unary(op, a) => unary(*op, evaluate(state, a.get(), slots)),
        Expr::Binary(op, a, b) => {
            let a = evaluate(state, a.get(), slots);
            let b = evaluate(state, b.get(), slots);
            binary(*op, a, b)
        }
        _ => unreachable!(),
    }
}

fn unary(op: UnOp, a: Evaluated) -> Evaluated
    ensures width { result.width ≡ unary_width op a.width }
    ensures value { result.value ≡ option_map (unary_interval op a.width) a.value }
{
    let width = match op {
        UnOp::Neg => a.width,
        UnOp::Not => Width::W32,
    };
    let value = match a.value {
        Some(v) => Some(unary_interval(op, a.width, v)),
        None => None,
    };
    Evaluated { width, value }
}

fn binary(op: BinOp, a: Evaluated, b: Evaluated) -> Evaluated
    ensures width { result.width ≡ binary_width op a.width b.width }
    ensures value { result.value ≡ binary_interval op (wider a.width b.width) a.value b.value }
{
    let wider = wider(a.width, b.width);
    Evaluated {
        width: binary_width(op, a.width, b.width),
        value: binary_interval(op, wider, a.value, b.value),
    }
}

fn binary_width(op: BinOp, a: Width, b: Width) -> Width
    ensures { result ≡ binary_width op a b }
{
    match op {
        BinOp::Add | BinOp::Sub | BinOp::Mul | BinOp::Div | BinOp::Rem => wider(a, b),
        _ => Width::W32,
    }
}

/// The width of a slot; that of an int where there is no such slot.
pub fn slot_width(slots: &[Slot], x: u16) -> Width
    ensures { result ≡ slot_width slots.now x }
{
    match slots.get(x as usize) {
        Some(slot) => slot.width,
        None => Width::W32,
    }
}

fn wider(a: Width, b: Width) -> Width
    ensures { result ≡ wider a b }
{
    match a {
        Width::W32 => b,
        Width::W64 => Width::W64,
    }
}

/// Sets the interval of a slot in a state that isn't Bottom.
pub fn assign(state: &mut State, slot: u16, v: Interval)
    requires reached { is_reached state.old ≡ true }
    requires in_range { slot < room_of state.old }
    ensures { state.new ≡ Reached (slice_set (slots_of state.old) slot v) (locks_of state.old) }
{
    state.set_slot(slot, v);
}

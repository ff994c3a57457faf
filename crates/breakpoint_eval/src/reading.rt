//! The interval of an expression over places.
ghost use Rattle.std.specs.Prelude.{◌≡◌, ◌++◌, length, map, option_map, slice_get};
ghost use Rattle.c_meaning.specs.Demand.{binary_width, slot_width, unary_width, wider};
ghost use Rattle.interval_dom.specs.Bounds.{between, unless_empty};
ghost use Rattle.state_dom.specs.Evaluation.{interval_of, reading_of};
ghost use Rattle.state_dom.specs.Operators.{binary_interval, unary_interval};
ghost use Rattle.state_dom.specs.StateValue.{room_of, slots_of};
ghost use Rattle.breakpoint_eval.specs.Names.{places_of};

use gob_tree::{BinOp, Expr, GlobalDecl, Slot, UnOp, Width};
use interval_dom::Interval;
use state_dom::{State, binary_interval, unary_interval};

/// What is known where an expression is watched: the slots there with their state, and all globals
/// with their intervals.
#[derive(Clone, Copy)]
pub(crate) struct Seen<'s> {
    pub slots: &'s [Slot],
    pub state: &'s State,
    pub declared: &'s [GlobalDecl],
    pub globals: &'s [Interval],
}

/// A width, and an interval where there is a value.
#[derive(Clone, Copy)]
pub(crate) struct Evaluated {
    pub width: Width,
    pub value: Option<Interval>,
}

/// The width of an expression over places, and its interval.
pub(crate) fn evaluate(seen: &Seen<'_>, e: &Expr) -> Evaluated
    requires { length (slots_of seen.now.state.now) ≡ room_of seen.now.state.now }
    ensures width { result.width ≡ (reading_of (places_of seen.now.slots.now seen.now.declared.now) e.now).width }
    ensures value { result.value ≡ (reading_of (places_of seen.now.slots.now seen.now.declared.now) e.now).interval (slots_of seen.now.state.now ++ seen.now.globals.now) }
{
    match e {
        Expr::Number(n, w) => Evaluated {
            width: *w,
            value: one_number(*n),
        },
        Expr::Local(place) => Evaluated {
            width: width_at(seen.slots, seen.declared, *place),
            value: interval_at(seen.state, seen.globals, *place),
        },
        Expr::Unary(op, a) => unary(*op, evaluate(seen, a.get())),
        Expr::Binary(op, a, b) => {
            let a = evaluate(seen, a.get());
            let b = evaluate(seen, b.get());
            binary(*op, a, b)
        }
        Expr::Global(_, w) | Expr::Nondet(w) | Expr::Call(_, w, _) => Evaluated {
            width: *w,
            value: None,
        },
    }
}

fn one_number(n: i64) -> Option<Interval>
    ensures { result ≡ Some (between n n) }
{
    Interval::new(n, n)
}

/// The width of a place.
fn width_at(slots: &[Slot], declared: &[GlobalDecl], place: u16) -> Width
    ensures { result ≡ slot_width (places_of slots.now declared.now) place }
{
    let i = place as usize;
    if i < slots.len() {
        return slots[i].width;
    }
    match declared.get(i - slots.len()) {
        Some(global) => global.width,
        None => Width::W32,
    }
}

/// The interval of a place, if it is one.
fn interval_at(state: &State, globals: &[Interval], place: u16) -> Option<Interval>
    requires { length (slots_of state.now) ≡ room_of state.now }
    ensures { result ≡ slice_get (slots_of state.now ++ globals.now) place }
{
    let i = place as usize;
    if i < state.room() {
        return Some(state.slot(place));
    }
    globals.get(i - state.room()).copied()
}

fn unary(op: UnOp, a: Evaluated) -> Evaluated
    ensures width { result.width ≡ unary_width op a.width }
    ensures value { result.value ≡ option_map (unary_interval op a.width) a.value }
{
    let width = match op {
        UnOp::Neg => a.width,
        UnOp::Not => Width::W32,
    };
    let value = match a.value {
        Some(v) => Some(unary_interval(op, a.width, v)),
        None => None,
    };
    Evaluated { width, value }
}

fn binary(op: BinOp, a: Evaluated, b: Evaluated) -> Evaluated
    ensures width { result.width ≡ binary_width op a.width b.width }
    ensures value { result.value ≡ binary_interval op (wider a.width b.width) a.value b.value }
{
    let wider = wider(a.width, b.width);
    Evaluated {
        width: binary_width(op, a.width, b.width),
        value: binary_interval(op, wider, a.value, b.value),
    }
}

fn binary_width(op: BinOp, a: Width, b: Width) -> Width
    ensures { result ≡ binary_width op a b }
{
    match op {
        BinOp::Add | BinOp::Sub | BinOp::Mul | BinOp::Div | BinOp::Rem => wider(a, b),
        _ => Width::W32,
    }
}

fn wider(a: Width, b: Width) -> Width
    ensures { result ≡ wider a b }
{
    match a {
        Width::W32 => b,
        Width::W64 => Width::W64,
    }
}

//! What an edge gives from a point.
ghost use Rattle.std.specs.Prelude.{◌≡◌, ◌<◌, ◌≤◌, ℕ, All, Contains, ◌≢◌, ◌^◌, IfOk, IfSome, IsSomeAnd, IsTrue, Some, length, slice_get, true};
ghost use Rattle.gob_tree.specs.declared.unit.FuncKind.TheVariants.{Thread};
ghost use Rattle.std.specs.Option.{option_copied, option_map};
ghost use Rattle.gob_tree.specs.Formed.{IsFormed, IsFormedFunction, IsFormedAction, is_plain};
ghost use Rattle.state_dom.specs.Evaluation.{guarded_by};
ghost use Rattle.state_dom.specs.StateValue.{StateValue, Reached, is_reached, room_of, slots_of, locks_of, start_of, FitsEach};
ghost use Rattle.constraint_sys.specs.Contribution.{outcome_of};
ghost use Rattle.constraint_sys.specs.Sound.{IsShaped};
ghost use Rattle.constraint_sys.specs.Table.{edges_at, empty_key, params_at, shown, shown_state, slots_at};
ghost use Rattle.constraint_sys.specs.Transfer.{assigned, called, frame_of, locked, number_at, only, outcome_in, read_from, returned, values_of, with_effect, with_slot, written};
ghost use Rattle.constraint_sys.specs.declared.unknown.Unknown.TheVariants.{Point};
ghost use Rattle.constraint_sys.specs.declared.value.Value.TheVariants.{State as StateOf};

use crate::functions::{function_at, room};
use crate::keys::{empty_key, key_of, point};
use crate::table::Table;
use crate::unknown::{Key, Unknown};
use crate::value::{Effect, Outcome, Value};
use gob_tree::{Action, Edge, Expr, FuncGraph, Memory, Program, Seq, Slot};
use interval_dom::Interval;
use lockset_dom::Locks;
use state_dom::{State, assign, converted, eval, guard, interval_width, slot_width};
use std::alloc::Global;

/// What an edge of a function gives in a context, from the state that the table has at its start;
/// `Memory` is want of memory.
pub fn outcome(
    alloc: Global,
    program: &Program,
    table: &Table,
    func: u16,
    key: &Key,
    edge: &Edge,
) -> Result<Outcome, Memory>
    requires formed { IsFormed program.now }
    requires shaped { IsShaped program.now table.now }
    requires edge { Contains (edges_at program.now func) edge.now }
    ensures { IfOk result (λ o. o ≡ outcome_of program.now table.now func key.now edge.now) }
{
    let function = function_at(program, func);
    match table.get(&point(func, key, edge.from)) {
        Some(Value::State(state)) if !state.is_bottom() => {
            done(alloc, program, table, function, &edge.act, state)
        }
        _ => Ok(only(alloc, State::bottom(alloc, room(function))?)),
    }
}

/// A state alone.
fn only(alloc: Global, value: State) -> Outcome
    ensures { result ≡ only value }
{
    Outcome {
        value,
        effects: Seq::new(alloc),
        reads: Seq::new(alloc),
    }
}

/// A state with one contribution to another unknown.
fn with_effect(
    alloc: Global,
    value: State,
    target: Unknown,
    given: Value,
) -> Result<Outcome, Memory>
    ensures { IfOk result (λ o. o ≡ with_effect value target given) }
{
    let mut outcome = only(alloc, value);
    outcome.effects.push(Effect {
        target,
        value: given,
    })?;
    Ok(outcome)
}

/// An action done in a state that isn't Bottom.
fn done(
    alloc: Global,
    program: &Program,
    table: &Table,
    function: &FuncGraph,
    act: &Action,
    state: &State,
) -> Result<Outcome, Memory>
    requires formed { IsFormed program.now }
    requires shaped { IsShaped program.now table.now }
    requires function { IsFormedFunction program.now function.now }
    requires reached { is_reached state.now ≡ true }
    requires fits { FitsEach function.now.slots (slots_of state.now) }
    requires room { room_of state.now ≡ length function.now.slots }
    requires act { IsFormedAction program.now function.now act.now }
    ensures { IfOk result (λ o. o ≡ outcome_in program.now table.now function.now.slots (slots_of state.now) (locks_of state.now) act.now) }
{
    let slots = function.slots.as_slice();
    match act {
        Action::Assign(x, e) => {
            let value = eval(state, e, slots);
            Ok(only(alloc, assigned(alloc, slots, state, *x, value)?))
        }
        Action::Read(x, g) => read(alloc, table, slots, state, *x, *g),
        Action::Write(g, e) => {
            let value = eval(state, e, slots);
            written(alloc, program, state, *g, value)
        }
        Action::Nondet(x) => {
            let any = Interval::full(interval_width(slot_width(slots, *x)));
            Ok(only(alloc, with_slot(alloc, slots, state, *x, any)?))
        }
        Action::Guard(e, wanted) => Ok(only(alloc, guarded(alloc, slots, state, e, *wanted)?)),
        Action::Assert(e) => Ok(only(alloc, guarded(alloc, slots, state, e, true)?)),
        Action::Lock(m) => Ok(only(alloc, locked(alloc, state, *m)?)),
        Action::Unlock(m) => {
            let left = state.locks().remove(*m);
            Ok(only(alloc, with_locks(alloc, state, left)?))
        }
        Action::Create(_, f) => created(alloc, program, state, *f),
        Action::Call(d, f, args) => call(
            alloc,
            program,
            table,
            function,
            state,
            CallSite { to: *d, func: *f },
            args.as_slice(),
        ),
        Action::Join(_) => Ok(only(alloc, state.copy(alloc)?)),
        Action::Skip => Ok(only(alloc, state.copy(alloc)?)),
    }
}

/// The state with a value in a slot, or Bottom without one.
fn assigned(
    alloc: Global,
    slots: &[Slot],
    state: &State,
    x: u16,
    value: Option<Interval>,
) -> Result<State, Memory>
    requires reached { is_reached state.now ≡ true }
    requires room { room_of state.now ≡ length slots.now }
    requires limit { length slots.now ≤ 128 }
    requires in_range { x < length slots.now }
    ensures { IfOk result (λ s. s ≡ assigned slots.now (slots_of state.now) (locks_of state.now) x value) }
{
    match value {
        Some(v) => with_slot(alloc, slots, state, x, v),
        None => State::bottom(alloc, slots.len() as u16),
    }
}

/// The state with the interval in a slot, converted to the slot's width.
fn with_slot(
    alloc: Global,
    slots: &[Slot],
    state: &State,
    x: u16,
    v: Interval,
) -> Result<State, Memory>
    requires reached { is_reached state.now ≡ true }
    requires in_range { x < room_of state.now }
    ensures { IfOk result (λ s. s ≡ Reached (with_slot slots.now (slots_of state.now) x v) (locks_of state.now)) }
{
    let mut next = state.copy(alloc)?;
    assign(&mut next, x, converted(v, slot_width(slots, x)));
    Ok(next)
}

/// The state with these locks.
fn with_locks(alloc: Global, state: &State, locks: Locks) -> Result<State, Memory>
    requires reached { is_reached state.now ≡ true }
    ensures { IfOk result (λ s. s ≡ Reached (slots_of state.now) locks) }
{
    let mut next = state.copy(alloc)?;
    next.set_locks(locks);
    Ok(next)
}

/// The state in which an expression has the wanted truth.
fn guarded(
    alloc: Global,
    slots: &[Slot],
    state: &State,
    e: &Expr,
    wanted: bool,
) -> Result<State, Memory>
    requires reached { is_reached state.now ≡ true }
    requires plain { IsTrue (is_plain (length slots.now) e.now) }
    requires room { room_of state.now ≡ length slots.now }
    ensures { IfOk result (λ s. s ≡ guarded_by slots.now e.now wanted (Reached (slots_of state.now) (locks_of state.now))) }
{
    let mut next = state.copy(alloc)?;
    guard(alloc, &mut next, e, wanted, slots)?;
    Ok(next)
}

/// A global's interval goes to a slot.
fn read(
    alloc: Global,
    table: &Table,
    slots: &[Slot],
    state: &State,
    x: u16,
    g: u16,
) -> Result<Outcome, Memory>
    requires reached { is_reached state.now ≡ true }
    requires room { room_of state.now ≡ length slots.now }
    requires limit { length slots.now ≤ 128 }
    requires in_range { x < length slots.now }
    ensures { IfOk result (λ o. o ≡ read_from table.now slots.now (slots_of state.now) (locks_of state.now) x g) }
{
    let value = assigned(alloc, slots, state, x, number(table, g))?;
    let mut outcome = only(alloc, value);
    outcome.reads.push(Unknown::Global(g))?;
    Ok(outcome)
}

fn number(table: &Table, g: u16) -> Option<Interval>
    ensures { result ≡ number_at table.now g }
{
    match table.get(&Unknown::Global(g)) {
        Some(Value::Number(v)) => Some(*v),
        _ => None,
    }
}

/// A value goes to a global.
fn written(
    alloc: Global,
    program: &Program,
    state: &State,
    g: u16,
    value: Option<Interval>,
) -> Result<Outcome, Memory>
    requires reached { is_reached state.now ≡ true }
    requires limit { room_of state.now < 2 ^ 16 }
    requires in_range { g < length program.now.globals }
    ensures { IfOk result (λ o. o ≡ written program.now (slots_of state.now) (locks_of state.now) g value) }
{
    match value {
        Some(v) => {
            let stored = converted(v, program.globals.as_slice()[g as usize].width);
            with_effect(
                alloc,
                state.copy(alloc)?,
                Unknown::Global(g),
                Value::Number(stored),
            )
        }
        None => Ok(only(alloc, State::bottom(alloc, state.room() as u16)?)),
    }
}

/// A mutex that is surely held is never got again.
fn locked(alloc: Global, state: &State, m: u16) -> Result<State, Memory>
    requires reached { is_reached state.now ≡ true }
    requires limit { room_of state.now < 2 ^ 16 }
    requires in_range { m < 8 }
    ensures { IfOk result (λ s. s ≡ locked (slots_of state.now) (locks_of state.now) m) }
{
    if state.locks().contains(m) {
        State::bottom(alloc, state.room() as u16)
    } else {
        with_locks(alloc, state, state.locks().insert(m))
    }
}

/// A thread starts in a function.
fn created(alloc: Global, program: &Program, state: &State, f: u16) -> Result<Outcome, Memory>
    requires formed { IsFormed program.now }
    requires reached { is_reached state.now ≡ true }
    requires in_range { f < length program.now.funcs }
    ensures { IfOk result (λ o. o ≡ with_effect (Reached (slots_of state.now) (locks_of state.now)) (Point f empty_key 0) (StateOf (start_of (length (slots_at program.now f))))) }
{
    let start = State::start(alloc, room(function_at(program, f)))?;
    let target = point(f, &empty_key(), 0);
    with_effect(alloc, state.copy(alloc)?, target, Value::State(start))
}

/// Which function a call is of, and the slot that its result goes to.
#[derive(Clone, Copy)]
struct CallSite {
    to: Option<u16>,
    func: u16,
}

/// A call.
fn call(
    alloc: Global,
    program: &Program,
    table: &Table,
    function: &FuncGraph,
    state: &State,
    site: CallSite,
    args: &[Expr],
) -> Result<Outcome, Memory>
    requires formed { IsFormed program.now }
    requires shaped { IsShaped program.now table.now }
    requires function { IsFormedFunction program.now function.now }
    requires reached { is_reached state.now ≡ true }
    requires fits { FitsEach function.now.slots (slots_of state.now) }
    requires room { room_of state.now ≡ length function.now.slots }
    requires to { IfSome site.to (λ x. x < length function.now.slots) }
    requires callable { IsSomeAnd (slice_get program.now.funcs site.func) (λ called. (length args.now ≡ called.params) × (called.kind ≢ Thread)) }
    requires plain { All (λ e. IsTrue (is_plain (length function.now.slots) e)) args.now }
    ensures { IfOk result (λ o. o ≡ called program.now table.now function.now.slots (slots_of state.now) (locks_of state.now) site.to site.func (values_of function.now.slots (slots_of state.now) args.now)) }
{
    let slots = function.slots.as_slice();
    match values(alloc, slots, state, args)? {
        Some(values) => called(alloc, program, table, slots, state, site, values.as_slice()),
        None => Ok(only(alloc, State::bottom(alloc, room(function))?)),
    }
}

/// The interval of each argument; `None` exactly where one has no value.
fn values(
    alloc: Global,
    slots: &[Slot],
    state: &State,
    args: &[Expr],
) -> Result<Option<Vec<Interval>>, Memory>
    requires reached { is_reached state.now ≡ true }
    requires fits { FitsEach slots.now (slots_of state.now) }
    requires plain { All (λ e. IsTrue (is_plain (length slots.now) e)) args.now }
    ensures { IfOk result (λ vs. option_map (λ v. v.items) vs ≡ values_of slots.now (slots_of state.now) args.now) }
{
    let mut values = Vec::new(alloc);
    for e in args {
        match eval(state, e, slots) {
            Some(v) => values.push(v)?,
            None => return Ok(None),
        }
    }
    Ok(Some(values))
}

/// A call with these arguments.
fn called(
    alloc: Global,
    program: &Program,
    table: &Table,
    slots: &[Slot],
    state: &State,
    site: CallSite,
    args: &[Interval],
) -> Result<Outcome, Memory>
    requires formed { IsFormed program.now }
    requires shaped { IsShaped program.now table.now }
    requires reached { is_reached state.now ≡ true }
    requires room { room_of state.now ≡ length slots.now }
    requires limit { length slots.now ≤ 128 }
    requires to { IfSome site.to (λ x. x < length slots.now) }
    requires function { site.func < length program.now.funcs }
    requires args { length args.now ≡ params_at program.now site.func }
    ensures { IfOk result (λ o. o ≡ called program.now table.now slots.now (slots_of state.now) (locks_of state.now) site.to site.func (Some args.now)) }
{
    let callee = function_at(program, site.func);
    let frame = frame(alloc, callee, args, state.locks())?;
    let key = key_of(callee.params, &frame);
    let exit = point(site.func, &key, 1);
    let value = returned(alloc, slots, state, site.to, table.get(&exit))?;
    let start = point(site.func, &key, 0);
    let mut outcome = with_effect(alloc, value, start, Value::State(frame))?;
    outcome.reads.push(exit)?;
    Ok(outcome)
}

/// The state with which a called function begins.
fn frame(
    alloc: Global,
    callee: &FuncGraph,
    args: &[Interval],
    locks: Locks,
) -> Result<State, Memory>
    requires limit { length callee.now.slots ≤ 128 }
    requires args { length args.now < length callee.now.slots }
    ensures { IfOk result (λ s. s ≡ Reached (frame_of callee.now.slots args.now) locks) }
{
    let slots = callee.slots.as_slice();
    let mut state = State::start(alloc, room(callee))?;
    for (i, v) in args.iter().enumerate() {
        let x = i as u16 + 1;
        assign(&mut state, x, converted(*v, slot_width(slots, x)));
    }
    state.set_locks(locks);
    Ok(state)
}

/// The state after a call, from the entry of the callee's exit.
fn returned(
    alloc: Global,
    slots: &[Slot],
    state: &State,
    d: Option<u16>,
    exit: Option<&Value>,
) -> Result<State, Memory>
    requires reached { is_reached state.now ≡ true }
    requires room { room_of state.now ≡ length slots.now }
    requires limit { length slots.now ≤ 128 }
    requires to { IfSome d (λ x. x < length slots.now) }
    requires exit { (s : StateValue) → option_copied exit ≡ Some (StateOf s) → 0 < room_of s }
    ensures { (empty : ℕ) → IfOk result (λ s. s ≡ returned slots.now (slots_of state.now) d (shown_state empty (shown (option_copied exit.entry)))) }
{
    match exit {
        Some(Value::State(exit)) if !exit.is_bottom() => match d {
            Some(x) => {
                let mut next = with_slot(alloc, slots, state, x, exit.slot(0))?;
                next.set_locks(exit.locks());
                Ok(next)
            }
            None => with_locks(alloc, state, exit.locks()),
        },
        _ => State::bottom(alloc, slots.len() as u16),
    }
}

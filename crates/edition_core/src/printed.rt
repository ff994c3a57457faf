//! The printed table: a line for each unknown, in the order of unknowns.
ghost use Rattle.std.specs.Prelude.{◌≡◌, ◌<◌, ◌≤◌, ◌++◌, [], Some, IfOk, OnOk, codes, decimal, length, slice_get, map, if◌then◌else◌, nat_eq, true};
ghost use Rattle.std.specs.Option.{option_copied};
ghost use Rattle.gob_tree.specs.Formed.{IsFormed, IsFormedFunction};
ghost use Rattle.gob_tree.specs.declared.graph.FuncGraph.{FuncGraph as TheFunction};
ghost use Rattle.state_dom.specs.StateValue.{HasShape, is_reached, slots_of, locks_of};
ghost use Rattle.constraint_sys.specs.Sound.{IsShaped, IsShapedEntry};
ghost use Rattle.gob_tree.specs.Labels.{labels_of};
ghost use Rattle.edition_core.specs.Printed as spec;

use crate::labels::labels_of_functions;
use crate::pieces::{push_bytes, push_interval, push_number};
use constraint_sys::{ArgKey, Key, Table, Unknown, Value};
use gob_tree::{FuncGraph, FuncKind, GlobalDecl, Memory, Place, Program, Seq, Text};
use interval_dom::Interval;
use lockset_dom::Locks;
use state_dom::State;
use std::alloc::Global;

/// The exit of a function, where what it returns shows.
const EXIT: u16 = 1;

/// The printed table of a program: a line for each unknown of the table, in the order of unknowns,
/// each ended by LF. `Memory` is want of memory.
///
/// A point is printed as `NAME(KEYS){LOCKS} NODE L:C STATE`. KEYS are `0`, `1` or `Any` for each
/// argument of the context, and LOCKS the mutexes that its caller holds, both joined by commas.
/// STATE is `unreached` where no run comes; else it is `x=[lo,hi]` for each named slot, `return=[lo,hi]`
/// at the exit of a function that returns a number, and the mutexes that are held in braces. A
/// global is printed as `global NAME=[lo,hi]`.
pub fn print_table(alloc: Global, program: &Program, table: &Table) -> Result<Vec<u8>, Memory>
    requires formed { IsFormed program.now }
    requires shaped { IsShaped program.now table.now }
    ensures { IfOk result (λ bytes. bytes.items ≡ spec.printed program.now table.now) }
{
    let labels = labels_of_functions(alloc, program.funcs.as_slice())?;
    let order = table.sorted(alloc)?;
    let mut out = Vec::new(alloc);
    push_lines(
        &mut out,
        program,
        labels.as_slice(),
        table,
        order.as_slice(),
    )?;
    Ok(out)
}

/// The lines of a program's globals alone, in their order, as the printed table has them. `Memory` is
/// want of memory.
pub fn print_globals(alloc: Global, program: &Program, table: &Table) -> Result<Vec<u8>, Memory>
    requires { IsFormed program.now }
    ensures { IfOk result (λ bytes. bytes.items ≡ spec.printed_globals program.now table.now) }
{
    let mut out = Vec::new(alloc);
    for (g, global) in program.globals.as_slice().iter().enumerate() {
        push_value_line(&mut out, global, table.get(&Unknown::Global(g as u16)))?;
    }
    Ok(out)
}

fn push_value_line(
    out: &mut Vec<u8>,
    global: &GlobalDecl,
    value: Option<&Value>,
) -> Result<(), Memory>
    ensures { OnOk result (out.new.items ≡ out.old.items ++ spec.value_line global.now (option_copied value.entry)) }
{
    match value {
        Some(Value::Number(interval)) => push_global_line(out, global, *interval),
        _ => Ok(()),
    }
}

fn push_lines(
    out: &mut Vec<u8>,
    program: &Program,
    labels: &[Seq<Text>],
    table: &Table,
    order: &[Unknown],
) -> Result<(), Memory>
    requires formed { IsFormed program.now }
    requires shaped { IsShaped program.now table.now }
    requires labels { labels.now ≡ map (λ (f : TheFunction). labels_of f.slots) program.now.funcs }
    ensures { OnOk result (out.new.items ≡ out.old.items ++ spec.lines_of program.now table.now order.now) }
{
    for u in order {
        if let Some(value) = table.get(u) {
            push_line(out, program, labels, *u, value)?;
        }
    }
    Ok(())
}

fn push_line(
    out: &mut Vec<u8>,
    program: &Program,
    labels: &[Seq<Text>],
    u: Unknown,
    value: &Value,
) -> Result<(), Memory>
    requires formed { IsFormed program.now }
    requires shaped { IsShapedEntry program.now u value.now }
    requires labels { labels.now ≡ map (λ (f : TheFunction). labels_of f.slots) program.now.funcs }
    ensures { OnOk result (out.new.items ≡ out.old.items ++ spec.line_of program.now u (Some value.now)) }
{
    match (u, value) {
        (Unknown::Point { func, key, node }, Value::State(state)) => {
            match program.funcs.as_slice().get(func as usize) {
                Some(f) => push_point_line(
                    out,
                    program,
                    f,
                    labels[func as usize].as_slice(),
                    &key,
                    node,
                    state,
                ),
                None => Ok(()),
            }
        }
        (Unknown::Global(g), Value::Number(interval)) => {
            match program.globals.as_slice().get(g as usize) {
                Some(global) => push_global_line(out, global, *interval),
                None => Ok(()),
            }
        }
        _ => Ok(()),
    }
}

fn push_point_line(
    out: &mut Vec<u8>,
    program: &Program,
    f: &FuncGraph,
    labels: &[Text],
    key: &Key,
    node: u16,
    state: &State,
) -> Result<(), Memory>
    requires mutexes { length program.now.mutexes ≤ 8 }
    requires formed { IsFormedFunction program.now f.now }
    requires labels { labels.now ≡ labels_of f.now.slots }
    requires node { node < length f.now.nodes }
    requires shaped { HasShape f.now.slots state.now }
    ensures { OnOk result (out.new.items ≡ out.old.items ++ spec.point_line program.now (Some f.now) key.now node state.now) }
{
    push_bytes(out, f.name.as_bytes())?;
    push_context(out, program, key)?;
    push_place(out, node, place_at(f, node))?;
    push_state(out, program, f, labels, node, state)?;
    push_bytes(out, b"\n")
}

fn push_context(out: &mut Vec<u8>, program: &Program, key: &Key) -> Result<(), Memory>
    requires { length program.now.mutexes ≤ 8 }
    ensures { OnOk result (out.new.items ≡ out.old.items ++ spec.context_text program.now key.now) }
{
    push_bytes(out, b"(")?;
    push_arguments(out, key)?;
    push_bytes(out, b"){")?;
    push_locks(out, program.mutexes.as_slice(), key.locks)?;
    push_bytes(out, b"}")
}

fn place_at(f: &FuncGraph, node: u16) -> Place
    requires { node < length f.now.nodes }
    ensures { slice_get f.now.nodes node ≡ Some result }
{
    f.nodes.as_slice()[node as usize]
}

fn push_place(out: &mut Vec<u8>, node: u16, place: Place) -> Result<(), Memory>
    ensures { OnOk result (out.new.items ≡ out.old.items ++ codes " " ++ decimal node ++ codes " " ++ spec.place_text (Some place) ++ codes " ") }
{
    push_bytes(out, b" ")?;
    push_number(out, node as usize)?;
    push_bytes(out, b" ")?;
    push_number(out, place.line as usize)?;
    push_bytes(out, b":")?;
    push_number(out, place.column as usize)?;
    push_bytes(out, b" ")
}

fn push_arguments(out: &mut Vec<u8>, key: &Key) -> Result<(), Memory>
    ensures { OnOk result (out.new.items ≡ out.old.items ++ spec.arguments_text key.now) }
{
    push_bytes(out, argument_text(key.a))?;
    if key.a != ArgKey::Absent && key.b != ArgKey::Absent {
        push_bytes(out, b",")?;
    }
    push_bytes(out, argument_text(key.b))
}

fn argument_text(argument: ArgKey) -> &'static [u8]
    ensures { result.now ≡ spec.joined_by_comma (spec.argument_texts argument) }
{
    match argument {
        ArgKey::Absent => b"",
        ArgKey::Zero => b"0",
        ArgKey::One => b"1",
        ArgKey::Any => b"Any",
    }
}

fn push_locks(out: &mut Vec<u8>, mutexes: &[Text], locks: Locks) -> Result<(), Memory>
    requires { length mutexes.now ≤ 8 }
    ensures { OnOk result (out.new.items ≡ out.old.items ++ spec.joined_by_comma (spec.names_of_held locks mutexes.now 0)) }
{
    let mut first = true;
    for (m, name) in mutexes.iter().enumerate() {
        if locks.contains(m as u16) {
            if !first {
                push_bytes(out, b",")?;
            }
            push_bytes(out, name.as_bytes())?;
            first = false;
        }
    }
    Ok(())
}

fn push_state(
    out: &mut Vec<u8>,
    program: &Program,
    f: &FuncGraph,
    labels: &[Text],
    node: u16,
    state: &State,
) -> Result<(), Memory>
    requires mutexes { length program.now.mutexes ≤ 8 }
    requires formed { IsFormedFunction program.now f.now }
    requires labels { labels.now ≡ labels_of f.now.slots }
    requires shaped { HasShape f.now.slots state.now }
    ensures { OnOk result (out.new.items ≡ out.old.items ++ spec.state_text program.now f.now node state.now) }
{
    if state.is_bottom() {
        push_bytes(out, b"unreached")
    } else {
        push_reached(out, program, f, labels, node, state)
    }
}

fn push_reached(
    out: &mut Vec<u8>,
    program: &Program,
    f: &FuncGraph,
    labels: &[Text],
    node: u16,
    state: &State,
) -> Result<(), Memory>
    requires mutexes { length program.now.mutexes ≤ 8 }
    requires few { length f.now.slots ≤ 128 }
    requires some { 0 < length f.now.slots }
    requires labels { labels.now ≡ labels_of f.now.slots }
    requires sizes { length (slots_of state.now) ≡ length f.now.slots }
    requires reached { is_reached state.now ≡ true }
    ensures { OnOk result (out.new.items ≡ out.old.items ++ spec.reached_text program.now f.now node (slots_of state.now) (locks_of state.now)) }
{
    push_slots(out, labels, state)?;
    push_returned(out, f, node, state)?;
    push_bytes(out, b"{")?;
    push_locks(out, program.mutexes.as_slice(), state.locks())?;
    push_bytes(out, b"}")
}

fn push_returned(out: &mut Vec<u8>, f: &FuncGraph, node: u16, state: &State) -> Result<(), Memory>
    requires { 0 < length (slots_of state.now) }
    ensures { OnOk result (out.new.items ≡ out.old.items ++ (if nat_eq node 1 then spec.returned_text f.now.kind (slots_of state.now) else [])) }
{
    if node != EXIT {
        return Ok(());
    }
    match f.kind {
        FuncKind::Int => {
            push_bytes(out, b"return=")?;
            push_interval(out, state.slot(0))?;
            push_bytes(out, b" ")
        }
        FuncKind::Void | FuncKind::Thread => Ok(()),
    }
}

fn push_slots(out: &mut Vec<u8>, labels: &[Text], state: &State) -> Result<(), Memory>
    requires few { length labels.now ≤ 128 }
    requires sizes { length (slots_of state.now) ≡ length labels.now }
    ensures { OnOk result (out.new.items ≡ out.old.items ++ spec.slots_text labels.now (slots_of state.now)) }
{
    for (i, label) in labels.iter().enumerate() {
        push_slot(out, label, state.slot(i as u16))?;
    }
    Ok(())
}

fn push_slot(out: &mut Vec<u8>, label: &Text, interval: Interval) -> Result<(), Memory>
    ensures { OnOk result (out.new.items ≡ out.old.items ++ spec.slot_text label.now interval) }
{
    if label.is_empty() {
        return Ok(());
    }
    push_bytes(out, label.as_bytes())?;
    push_bytes(out, b"=")?;
    push_interval(out, interval)?;
    push_bytes(out, b" ")
}

fn push_global_line(
    out: &mut Vec<u8>,
    global: &GlobalDecl,
    interval: Interval,
) -> Result<(), Memory>
    ensures { OnOk result (out.new.items ≡ out.old.items ++ spec.global_line (Some global.now) interval) }
{
    push_bytes(out, b"global ")?;
    push_bytes(out, global.name.as_bytes())?;
    push_bytes(out, b"=")?;
    push_interval(out, interval)?;
    push_bytes(out, b"\n")
}

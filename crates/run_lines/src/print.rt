//! The lines of a run.
ghost use Rattle.std.specs.Prelude.{◌≡◌, ◌<◌, ◌≤◌, ◌++◌, ℕ, List, [], map, length, IfOk, OnOk, option_map, slice_get};
ghost use Rattle.gob_tree.specs.declared.unit.Function.{Function as FunctionOf};
ghost use Rattle.gob_tree.specs.Labels.{labels_of};
ghost use Rattle.std.specs.Option.{option_map_or};
ghost use Rattle.c_meaning.specs.Demand.{value_at};
ghost use Rattle.c_meaning.specs.Tree.{func_slots};
ghost use Rattle.tree_run.specs.Viewing.{top_seen};
ghost use Rattle.run_lines.specs.Lines as spec;

use c_meaning::{Choice, Stepped};
use gob_tree::{
    Function, GlobalDecl, Memory, Seq, Text, Unit, push_bytes, push_number, push_signed,
    slot_labels,
};
use std::alloc::Global;
use tree_run::{Machine, RunEnd, TopView, run};

fn word_text(word: Stepped) -> &'static [u8]
    ensures { result.now ≡ spec.word_text word }
{
    match word {
        Stepped::Moved => b"moved",
        Stepped::Blocked => b"blocked",
        Stepped::Faulted => b"faulted",
        Stepped::Ended => b"ended",
        Stepped::NoThread => b"none",
    }
}

fn push_step(out: &mut Vec<u8>, number: u32, thread: u32, word: Stepped) -> Result<(), Memory>
    ensures { OnOk result (out.new.items ≡ out.old.items ++ spec.step_line number thread word) }
{
    push_number(out, number as usize)?;
    push_bytes(out, b" ")?;
    push_number(out, thread as usize)?;
    push_bytes(out, b" ")?;
    push_bytes(out, word_text(word))?;
    push_bytes(out, b"\n")
}

fn push_steps(out: &mut Vec<u8>, choices: &[Choice], words: &[Stepped]) -> Result<(), Memory>
    requires few { length choices.now < 4294967294 }
    requires sizes { length words.now ≡ length choices.now }
    ensures { OnOk result (out.new.items ≡ out.old.items ++ spec.step_lines 1 choices.now words.now) }
{
    for (i, choice) in choices.iter().enumerate() {
        push_step(out, i as u32 + 1, choice.thread, words[i])?;
    }
    Ok(())
}

fn number_at(values: &[i64], x: usize) -> i64
    ensures { result ≡ value_at values.now x }
{
    match values.get(x) {
        Some(number) => *number,
        None => 0,
    }
}

fn push_global(out: &mut Vec<u8>, name: &Text, number: i64) -> Result<(), Memory>
    ensures { OnOk result (out.new.items ≡ out.old.items ++ spec.global_line name.now number) }
{
    push_bytes(out, b"global ")?;
    push_bytes(out, name.as_bytes())?;
    push_bytes(out, b"=")?;
    push_signed(out, number)?;
    push_bytes(out, b"\n")
}

fn push_globals(out: &mut Vec<u8>, decls: &[GlobalDecl], values: &[i64]) -> Result<(), Memory>
    ensures { OnOk result (out.new.items ≡ out.old.items ++ spec.global_lines 0 decls.now values.now) }
{
    for (g, decl) in decls.iter().enumerate() {
        push_global(out, &decl.name, number_at(values, g))?;
    }
    Ok(())
}

fn push_slot(out: &mut Vec<u8>, label: &Text, number: i64) -> Result<(), Memory>
    ensures { OnOk result (out.new.items ≡ out.old.items ++ spec.slot_text label.now number) }
{
    if label.is_empty() {
        return Ok(());
    }
    push_bytes(out, b" ")?;
    push_bytes(out, label.as_bytes())?;
    push_bytes(out, b"=")?;
    push_signed(out, number)
}

fn push_slots(out: &mut Vec<u8>, labels: &[Text], values: &[i64]) -> Result<(), Memory>
    ensures { OnOk result (out.new.items ≡ out.old.items ++ spec.slots_text 0 labels.now values.now) }
{
    for (x, label) in labels.iter().enumerate() {
        push_slot(out, label, number_at(values, x))?;
    }
    Ok(())
}

/// The labels of each function's slots.
fn labels_of_functions(alloc: Global, funcs: &[Function]) -> Result<Seq<Seq<Text>>, Memory>
    ensures { IfOk result (λ all. all ≡ map (λ (f : FunctionOf). labels_of f.slots) funcs.now) }
{
    let mut all = Seq::new(alloc);
    for f in funcs {
        all.push(slot_labels(alloc, f.slots.as_slice())?)?;
    }
    Ok(all)
}

/// The name of a function by its number; none where there is no such function.
fn name_of(unit: &Unit, func: u16) -> &[u8]
    ensures { result.now ≡ spec.name_of unit.now func }
{
    match unit.funcs.as_slice().get(func as usize) {
        Some(function) => function.name.as_bytes(),
        None => &[],
    }
}

/// The labels of a function's slots by its number; none where there is no such function.
fn labels_at(labels: &[Seq<Text>], func: u16) -> &[Text]
    ensures { result.now ≡ option_map_or (λ (all : List (List ℕ)). all) (slice_get labels.now func) [] }
{
    match labels.get(func as usize) {
        Some(all) => all.as_slice(),
        None => &[],
    }
}

fn push_top(out: &mut Vec<u8>, unit: &Unit, labels: &[Text], top: TopView<'_>) -> Result<(), Memory>
    requires labels { labels.now ≡ labels_of (func_slots unit.now (top_seen top).func) }
    ensures { OnOk result (out.new.items ≡ out.old.items ++ spec.top_text unit.now (top_seen top.entry)) }
{
    push_bytes(out, name_of(unit, top.func))?;
    push_bytes(out, b" ")?;
    push_number(out, top.place.line as usize)?;
    push_bytes(out, b":")?;
    push_number(out, top.place.column as usize)?;
    push_slots(out, labels, top.slots)
}

#[tactic(auto, using(crate::proofs::Printing::labels_there))]
fn push_thread(
    out: &mut Vec<u8>,
    unit: &Unit,
    labels: &[Seq<Text>],
    thread: u32,
    top: Option<TopView<'_>>,
) -> Result<(), Memory>
    requires labels { labels.now ≡ map (λ (f : FunctionOf). labels_of f.slots) unit.now.funcs }
    ensures { OnOk result (out.new.items ≡ out.old.items ++ spec.thread_line unit.now thread (option_map top_seen top.entry)) }
{
    push_bytes(out, b"thread ")?;
    push_number(out, thread as usize)?;
    match top {
        None => push_bytes(out, b" ended\n"),
        Some(top) => {
            push_bytes(out, b" ")?;
            let labels = labels_at(labels, top.func);
            push_top(out, unit, labels, top)?;
            push_bytes(out, b"\n")
        }
    }
}

fn push_threads(
    out: &mut Vec<u8>,
    unit: &Unit,
    labels: &[Seq<Text>],
    machine: &Machine<'_>,
) -> Result<(), Memory>
    requires labels { labels.now ≡ map (λ (f : FunctionOf). labels_of f.slots) unit.now.funcs }
    ensures { OnOk result (out.new.items ≡ out.old.items ++ spec.thread_lines unit.now machine.now 1 (length machine.now.threads)) }
{
    for before in 0..machine.thread_count() {
        let thread = before + 1;
        push_thread(out, unit, labels, thread, machine.top(thread))?;
    }
    Ok(())
}

/// The lines of a run: `I T WORD` for choice I on thread T, WORD one of `moved`, `blocked`,
/// `faulted`, `ended`, `none`; `global NAME=V` for each global; and `thread T ended`, or
/// `thread T FUNCTION L:C` with ` NAME=V` for each parameter and named local, for each thread. Each
/// ends with LF. `Memory` is want of memory.
#[tactic(auto, using(crate::proofs::Printing::words_count))]
pub fn print_run(alloc: Global, unit: &Unit, choices: &[Choice]) -> Result<Vec<u8>, Memory>
    requires { length choices.now < 4294967294 }
    ensures { IfOk result (λ bytes. bytes.items ≡ spec.run_lines unit.now choices.now) }
{
    let labels = labels_of_functions(alloc, unit.funcs.as_slice())?;
    let RunEnd { steps, last } = run(alloc, unit, choices)?;
    let mut out = Vec::new(alloc);
    push_steps(&mut out, choices, steps.as_slice())?;
    push_globals(&mut out, unit.globals.as_slice(), last.globals())?;
    push_threads(&mut out, unit, labels.as_slice(), &last)?;
    Ok(out)
}

//! The texts of labels.
ghost use Rattle.std.specs.Prelude.{◌≡◌, ◌++◌, IfOk, OnOk, slice_get};
ghost use Rattle.std.specs.Option.{option_copied};
ghost use Rattle.arg_graph.specs.Texts as spec;

use crate::expressions::{push_expr, push_name, slot_names};
use crate::pieces::push_bytes;
use crate::vertex::Label;
use gob_tree::{Action, Edge, Expr, FuncGraph, Memory, Program, Text};
use std::alloc::Global;

/// The text of a label of a function; a label that no step of the function bears has none. `Memory`
/// is want of memory.
///
/// It is `x = E`, `x = g`, `g = E` and `x = any` for assignments, `E` and `!(E)` for a condition and
/// its opposite, `assert E`, `lock m`, `unlock m`, `create f`, `join t` and `skip`; for a call
/// `over f(E, E)` and `into f(E, E)`; `thread f` and `leave`. An operand that has an operator
/// itself stands in parentheses.
pub fn label_text(alloc: Global, program: &Program, func: u16, label: Label) -> Result<Text, Memory>
    ensures { IfOk result (λ text. text ≡ spec.label_text program.now func label) }
{
    let mut out = Vec::new(alloc);
    if let Some(function) = program.funcs.as_slice().get(func as usize) {
        push_label(alloc, &mut out, program, function, label)?;
    }
    Text::of(alloc, out.as_slice())
}

fn push_label(
    alloc: Global,
    out: &mut Vec<u8>,
    program: &Program,
    function: &FuncGraph,
    label: Label,
) -> Result<(), Memory>
    ensures { OnOk result (out.new.items ≡ out.old.items ++ spec.text_in program.now function.now label) }
{
    let names = slot_names(alloc, function.slots.as_slice())?;
    let names = names.as_slice();
    match label {
        Label::Do(n) => push_done(out, program, function, names, action(function, n)),
        Label::Over(n) => push_call(out, program, names, b"over ", action(function, n)),
        Label::Enter(n) => push_call(out, program, names, b"into ", action(function, n)),
        Label::Thread(n) => push_thread(out, program, action(function, n)),
        Label::Leave => push_bytes(out, b"leave"),
    }
}

/// The action of an edge, if the function has it.
fn action(function: &FuncGraph, n: u32) -> Option<&Action>
    ensures { option_copied result ≡ spec.action_of (slice_get function.now.edges n) }
{
    match function.edges.as_slice().get(n as usize) {
        Some(edge) => Some(&edge.act),
        None => None,
    }
}

/// Adds an edge that is done.
fn push_done(
    out: &mut Vec<u8>,
    program: &Program,
    function: &FuncGraph,
    names: &[Text],
    act: Option<&Action>,
) -> Result<(), Memory>
    requires { names.now ≡ spec.slot_names function.now.slots }
    ensures { OnOk result (out.new.items ≡ out.old.items ++ spec.if_some (spec.done_text program.now function.now) (option_copied act.entry)) }
{
    match act {
        Some(Action::Assign(x, e)) => {
            push_name(out, names, *x)?;
            push_bytes(out, b" = ")?;
            push_expr(out, names, e)
        }
        Some(Action::Read(x, g)) => {
            push_name(out, names, *x)?;
            push_bytes(out, b" = ")?;
            push_global(out, program, *g)
        }
        Some(Action::Write(g, e)) => {
            push_global(out, program, *g)?;
            push_bytes(out, b" = ")?;
            push_expr(out, names, e)
        }
        Some(Action::Nondet(x)) => {
            push_name(out, names, *x)?;
            push_bytes(out, b" = any")
        }
        Some(Action::Guard(e, wanted)) => push_guard(out, names, e, *wanted),
        Some(Action::Assert(e)) => {
            push_bytes(out, b"assert ")?;
            push_expr(out, names, e)
        }
        Some(Action::Lock(m)) => {
            push_bytes(out, b"lock ")?;
            push_name(out, program.mutexes.as_slice(), *m)
        }
        Some(Action::Unlock(m)) => {
            push_bytes(out, b"unlock ")?;
            push_name(out, program.mutexes.as_slice(), *m)
        }
        Some(Action::Create(_, f)) => {
            push_bytes(out, b"create ")?;
            push_function(out, program, *f)
        }
        Some(Action::Join(t)) => {
            push_bytes(out, b"join ")?;
            push_name(out, function.threads.as_slice(), *t)
        }
        Some(Action::Skip) => push_bytes(out, b"skip"),
        Some(Action::Call(..)) | None => Ok(()),
    }
}

fn push_guard(out: &mut Vec<u8>, names: &[Text], e: &Expr, wanted: bool) -> Result<(), Memory>
    ensures { OnOk result (out.new.items ≡ out.old.items ++ spec.guard_text names.now e.now wanted) }
{
    if wanted {
        return push_expr(out, names, e);
    }
    push_bytes(out, b"!(")?;
    push_expr(out, names, e)?;
    push_bytes(out, b")")
}

/// Adds a call behind a word.
fn push_call(
    out: &mut Vec<u8>,
    program: &Program,
    names: &[Text],
    word: &[u8],
    act: Option<&Action>,
) -> Result<(), Memory>
    ensures { OnOk result (out.new.items ≡ out.old.items ++ spec.if_some (spec.call_text program.now names.now word.now) (option_copied act.entry)) }
{
    match act {
        Some(Action::Call(_, f, args)) => {
            push_bytes(out, word)?;
            push_function(out, program, *f)?;
            push_bytes(out, b"(")?;
            push_arguments(out, names, args.as_slice())?;
            push_bytes(out, b")")
        }
        _ => Ok(()),
    }
}

fn push_arguments(out: &mut Vec<u8>, names: &[Text], args: &[Expr]) -> Result<(), Memory>
    ensures { OnOk result (out.new.items ≡ out.old.items ++ spec.arguments_text names.now args.now) }
{
    match args {
        [] => Ok(()),
        [first, more @ ..] => {
            push_expr(out, names, first)?;
            push_more_arguments(out, names, more)
        }
    }
}

fn push_more_arguments(out: &mut Vec<u8>, names: &[Text], args: &[Expr]) -> Result<(), Memory>
    ensures { OnOk result (out.new.items ≡ out.old.items ++ spec.more_arguments_text names.now args.now) }
{
    for e in args {
        push_bytes(out, b", ")?;
        push_expr(out, names, e)?;
    }
    Ok(())
}

/// Adds the thread that an edge starts.
fn push_thread(out: &mut Vec<u8>, program: &Program, act: Option<&Action>) -> Result<(), Memory>
    ensures { OnOk result (out.new.items ≡ out.old.items ++ spec.if_some (spec.thread_text program.now) (option_copied act.entry)) }
{
    match act {
        Some(Action::Create(_, f)) => {
            push_bytes(out, b"thread ")?;
            push_function(out, program, *f)
        }
        _ => Ok(()),
    }
}

fn push_function(out: &mut Vec<u8>, program: &Program, f: u16) -> Result<(), Memory>
    ensures { OnOk result (out.new.items ≡ out.old.items ++ spec.function_text program.now f) }
{
    match program.funcs.as_slice().get(f as usize) {
        Some(function) => push_bytes(out, function.name.as_bytes()),
        None => Ok(()),
    }
}

fn push_global(out: &mut Vec<u8>, program: &Program, g: u16) -> Result<(), Memory>
    ensures { OnOk result (out.new.items ≡ out.old.items ++ spec.global_text program.now g) }
{
    match program.globals.as_slice().get(g as usize) {
        Some(global) => push_bytes(out, global.name.as_bytes()),
        None => Ok(()),
    }
}

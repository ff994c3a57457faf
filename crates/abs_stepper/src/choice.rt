//! The label that a move by statements takes.
ghost use Rattle.std.specs.Prelude.{◌≡◌, ◌++◌, IfOk, OnOk, filter};
ghost use Rattle.arg_graph.specs.Graphs.{offered_in};
ghost use Rattle.abs_stepper.specs.Statements.{entering_at, is_entering, is_passing, only, or_else, passing_at};
ghost use Rattle.abs_stepper.specs.Ways.{chosen};

use crate::stepping::labels_at;
use arg_graph::{Frame, Graph, Label};
use gob_tree::Memory;
use std::alloc::Global;

/// How a move by statements treats a call: it goes over it, or enters it where it can.
#[derive(Clone, Copy)]
pub(crate) enum Way {
    Across,
    Into,
}

/// The label that a move takes at a stack, if it takes one.
pub(crate) fn chosen(
    alloc: Global,
    way: Way,
    graph: &Graph,
    stack: &[Frame],
) -> Result<Option<Label>, Memory>
    ensures { IfOk result (λ label. label ≡ chosen way (offered_in graph.now) stack.now) }
{
    let passing = only(passing_at(alloc, graph, stack)?.as_slice());
    match way {
        Way::Across => Ok(passing),
        Way::Into => Ok(or_else(only(entering_at(alloc, graph, stack)?.as_slice()), passing)),
    }
}

/// The labels among `Do`, `Over` and `Leave` that are offered to a stack.
pub(crate) fn passing_at(
    alloc: Global,
    graph: &Graph,
    stack: &[Frame],
) -> Result<Vec<Label>, Memory>
    ensures { IfOk result (λ labels. labels.items ≡ passing_at (offered_in graph.now) stack.now) }
{
    let labels = labels_at(alloc, graph, stack)?;
    let mut passing = Vec::new(alloc);
    push_passing(&mut passing, labels.as_slice())?;
    Ok(passing)
}

fn push_passing(passing: &mut Vec<Label>, labels: &[Label]) -> Result<(), Memory>
    ensures { OnOk result (passing.new.items ≡ passing.old.items ++ filter is_passing labels.now) }
{
    for label in labels {
        if is_passing(*label) {
            passing.push(*label)?;
        }
    }
    Ok(())
}

/// The `Enter` labels that are offered to a stack.
fn entering_at(alloc: Global, graph: &Graph, stack: &[Frame]) -> Result<Vec<Label>, Memory>
    ensures { IfOk result (λ labels. labels.items ≡ entering_at (offered_in graph.now) stack.now) }
{
    let labels = labels_at(alloc, graph, stack)?;
    let mut entering = Vec::new(alloc);
    push_entering(&mut entering, labels.as_slice())?;
    Ok(entering)
}

fn push_entering(entering: &mut Vec<Label>, labels: &[Label]) -> Result<(), Memory>
    ensures { OnOk result (entering.new.items ≡ entering.old.items ++ filter is_entering labels.now) }
{
    for label in labels {
        if is_entering(*label) {
            entering.push(*label)?;
        }
    }
    Ok(())
}

fn is_passing(label: Label) -> bool
    ensures { result ≡ is_passing label }
{
    match label {
        Label::Do(_) | Label::Over(_) | Label::Leave => true,
        Label::Enter(_) | Label::Thread(_) => false,
    }
}

fn is_entering(label: Label) -> bool
    ensures { result ≡ is_entering label }
{
    match label {
        Label::Enter(_) => true,
        Label::Do(_) | Label::Over(_) | Label::Thread(_) | Label::Leave => false,
    }
}

/// The one label of a list that has no other.
fn only(labels: &[Label]) -> Option<Label>
    ensures { result ≡ only labels.now }
{
    match labels {
        [label] => Some(*label),
        _ => None,
    }
}

fn or_else(first: Option<Label>, other: Option<Label>) -> Option<Label>
    ensures { result ≡ or_else first other }
{
    match first {
        Some(label) => Some(label),
        None => other,
    }
}

//! The labels of the slots of all functions.
ghost use Rattle.std.specs.Prelude.{◌≡◌, IfOk, map};
ghost use Rattle.gob_tree.specs.Labels.{labels_of};
ghost use Rattle.gob_tree.specs.declared.graph.FuncGraph.{FuncGraph as TheFunction};

use gob_tree::{FuncGraph, Memory, Seq, Text, slot_labels};
use std::alloc::Global;

/// The labels of the slots of each function.
pub(crate) fn labels_of_functions(
    alloc: Global,
    funcs: &[FuncGraph],
) -> Result<Seq<Seq<Text>>, Memory>
    ensures { IfOk result (λ all. all ≡ map (λ (f : TheFunction). labels_of f.slots) funcs.now) }
{
    let mut all = Seq::new(alloc);
    for func in funcs {
        all.push(slot_labels(alloc, func.slots.as_slice())?)?;
    }
    Ok(all)
}

//! What is asked of the edition of a text, answered plainly: each call is false too where there is no
//! edition of the text, or memory is wanting.

use arg_chain::chain;
use arg_graph::{Frame, Label, Stack, Step, Vertex, label_text};
use edition_core::Edition;
use edition_texts::edition_of;
use gob_tree::{Memory, Program};
use std::alloc::Global;

/// Whether these steps are offered at a vertex, and no others.
pub fn offers(alloc: Global, text: &[u8], v: Vertex, wanted: &[Step]) -> bool {
    match edition_of(alloc, text) {
        Some(edition) => edition.graph().out(v) == wanted,
        None => false,
    }
}

/// Whether these are the vertices at a node.
pub fn at_node(alloc: Global, text: &[u8], func: u16, node: u16, wanted: &[Vertex]) -> bool {
    match edition_of(alloc, text) {
        Some(edition) => edition.graph().at_node(func, node) == wanted,
        None => false,
    }
}

/// Whether a call that was entered at a vertex goes on there; `None` stands for nowhere.
pub fn goes_on(alloc: Global, text: &[u8], v: Vertex, edge: u32, wanted: Option<Vertex>) -> bool {
    match edition_of(alloc, text) {
        Some(edition) => edition.graph().after(v, edge) == wanted,
        None => false,
    }
}

/// Whether a label of a function reads so.
pub fn reads(alloc: Global, text: &[u8], func: u16, label: Label, wanted: &[u8]) -> bool {
    match edition_of(alloc, text) {
        Some(edition) => is_text(alloc, edition.source().program(), func, label, wanted),
        None => false,
    }
}

fn is_text(alloc: Global, program: &Program, func: u16, label: Label, wanted: &[u8]) -> bool {
    match label_text(alloc, program, func, label) {
        Ok(shown) => shown.as_bytes() == wanted,
        Err(_) => false,
    }
}

/// Whether the least chain of a vertex has these frames; no frames stand for no chain.
pub fn has_chain(alloc: Global, text: &[u8], v: Vertex, wanted: &[Frame]) -> bool {
    match edition_of(alloc, text) {
        Some(edition) => is_chain(alloc, &edition, v, wanted),
        None => false,
    }
}

fn is_chain(alloc: Global, edition: &Edition, v: Vertex, wanted: &[Frame]) -> bool {
    match least_chain(alloc, edition, v) {
        Ok(Some(stack)) => stack.as_slice() == wanted,
        Ok(None) => wanted.is_empty(),
        Err(_) => false,
    }
}

fn least_chain(alloc: Global, edition: &Edition, v: Vertex) -> Result<Option<Stack>, Memory> {
    chain(alloc, edition.source().program(), edition.graph(), v)
}

/// Whether a node of a function stands at a line.
pub fn stands_at(alloc: Global, text: &[u8], func: u16, node: u16, line: u32) -> bool {
    match edition_of(alloc, text) {
        Some(edition) => is_line(edition.source().program(), func, node, line),
        None => false,
    }
}

fn is_line(program: &Program, func: u16, node: u16, line: u32) -> bool {
    match program.funcs.as_slice().get(usize::from(func)) {
        Some(function) => match function.nodes.as_slice().get(usize::from(node)) {
            Some(place) => place.line == line,
            None => false,
        },
        None => false,
    }
}

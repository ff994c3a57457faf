//! Small programs, and what is known of their numbers.
use gob_tree::{
    Action, Edge, Expr, FuncGraph, FuncKind, GlobalDecl, Memory, Program, Seq, Slot, Text, Width,
};
use std::alloc::Global;

fn assigned(alloc: Global, numbers: &[i64]) -> Result<Seq<Edge>, Memory> {
    let mut edges = Seq::new(alloc);
    for n in numbers {
        edges.push(Edge {
            from: 0,
            act: Action::Assign(0, Expr::Number(*n, Width::W32)),
            to: 1,
        })?;
    }
    Ok(edges)
}

fn one_slot(alloc: Global, width: Width) -> Result<Seq<Slot>, Memory> {
    let mut slots = Seq::new(alloc);
    let name = Text::of(alloc, b"x")?;
    slots.push(Slot { name, width })?;
    Ok(slots)
}

/// A function with one slot of a width, that assigns these numbers.
fn function_with(alloc: Global, numbers: &[i64], width: Width) -> Result<FuncGraph, Memory> {
    let slots = one_slot(alloc, width)?;
    let edges = assigned(alloc, numbers)?;
    Ok(FuncGraph {
        name: Text::of(alloc, b"main")?,
        kind: FuncKind::Int,
        params: 0,
        slots,
        threads: Seq::new(alloc),
        nodes: Seq::new(alloc),
        edges,
    })
}

fn one_global(alloc: Global, initial: i64) -> Result<Seq<GlobalDecl>, Memory> {
    let mut globals = Seq::new(alloc);
    let name = Text::of(alloc, b"g")?;
    globals.push(GlobalDecl {
        name,
        width: Width::W32,
        initial,
    })?;
    Ok(globals)
}

/// A program of one function, which assigns these numbers to a slot of a width, and one global int.
pub(crate) fn program_with(
    alloc: Global,
    numbers: &[i64],
    width: Width,
    initial: i64,
) -> Result<Program, Memory> {
    let mut funcs = Seq::new(alloc);
    funcs.push(function_with(alloc, numbers, width)?)?;
    let globals = one_global(alloc, initial)?;
    Ok(Program {
        funcs,
        globals,
        mutexes: Seq::new(alloc),
        main: 0,
    })
}

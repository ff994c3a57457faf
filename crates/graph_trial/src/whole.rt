//! Whole functions: the ends of their edges, the silent ones among these, and the greatest that are
//! built.
use crate::build_up::{at, binary, int};
use cfg_build::{BuildFault, build, silent_edges};
use gob_tree::{
    BinOp, Boxed, Edge, Expr, FuncKind, Function, Memory, Place, Placed, Seq, Slot, Stmt, Target,
    Text, Width,
};
use std::alloc::Global;
use std::test::Fail;

fn function_of(alloc: Global, slots: usize, body: Seq<Placed>) -> Result<Function, Memory> {
    let mut list = Seq::new(alloc);
    for _ in 0..slots {
        let name = Text::of(alloc, b"")?;
        list.push(Slot {
            name,
            width: Width::W32,
        })?;
    }
    Ok(Function {
        name: Text::of(alloc, b"main")?,
        place: Place { line: 1, column: 5 },
        end: Place { line: 9, column: 1 },
        kind: FuncKind::Int,
        params: 0,
        slots: list,
        threads: Seq::new(alloc),
        body,
    })
}

fn ends(alloc: Global, edges: &[Edge]) -> Result<Seq<(u16, u16)>, Memory> {
    let mut list = Seq::new(alloc);
    for edge in edges {
        list.push((edge.from, edge.to))?;
    }
    Ok(list)
}

fn empties(alloc: Global, count: usize) -> Result<Seq<Placed>, Memory> {
    let mut body = Seq::new(alloc);
    for _ in 0..count {
        body.push(at(2, 3, Stmt::Empty))?;
    }
    Ok(body)
}

fn returning(alloc: Global, value: Expr) -> Result<Seq<Placed>, Memory> {
    let mut body = Seq::new(alloc);
    body.push(at(2, 3, Stmt::Return(Some(value))))?;
    Ok(body)
}

#[test]
fn a_while_loop(rt: HostRuntime) -> Result<(), Fail> {
    let alloc = rt.alloc();
    let test = binary(alloc, BinOp::Lt, Expr::Local(1), int(10))?;
    let next = binary(alloc, BinOp::Add, Expr::Local(1), int(1))?;
    let step = at(3, 3, Stmt::Assign(Target::Local(1), next));
    let mut body = Seq::new(alloc);
    body.push(at(2, 3, Stmt::Declare(1, Some(int(0)))))?;
    body.push(at(3, 3, Stmt::While(test, Boxed::new(alloc, step)?)))?;
    body.push(at(4, 3, Stmt::Return(Some(Expr::Local(1)))))?;
    let function = function_of(alloc, 2, body)?;
    let graph = build(alloc, &function)?;
    let ends = ends(alloc, graph.edges.as_slice())?;
    assert_eq!(rt;
        ends.as_slice(),
        [(0, 2), (2, 3), (3, 5), (3, 4), (5, 3), (4, 1)].as_slice()
    );
    assert_eq!(rt; graph.nodes.len(), 6);
    assert_eq!(rt; graph.slots.len(), 2);
    Ok(())
}

#[test]
fn an_and_with_an_input(rt: HostRuntime) -> Result<(), Fail> {
    let alloc = rt.alloc();
    let both = binary(alloc, BinOp::And, int(1), Expr::Global(0, Width::W32))?;
    let function = function_of(alloc, 1, returning(alloc, both)?)?;
    let graph = build(alloc, &function)?;
    let ends = ends(alloc, graph.edges.as_slice())?;
    let wanted = [(0, 2), (2, 3), (2, 4), (4, 5), (3, 6), (6, 5), (5, 1)];
    assert_eq!(rt; ends.as_slice(), wanted.as_slice());
    let silent = silent_edges(alloc, &function)?;
    assert_eq!(rt;
        silent.as_slice(),
        [true, true, true, true, false, true, false].as_slice()
    );
    assert_eq!(rt; graph.slots.len(), 3);
    Ok(())
}

#[test]
fn at_most_4096_nodes(rt: HostRuntime) -> Result<(), Fail> {
    let alloc = rt.alloc();
    let most = function_of(alloc, 1, empties(alloc, 4094)?)?;
    let graph = build(alloc, &most)?;
    assert_eq!(rt; graph.nodes.len(), 4096);
    let more = function_of(alloc, 1, empties(alloc, 4095)?)?;
    assert!(rt; matches!(build(alloc, &more), Err(BuildFault::Limit)));
    Ok(())
}

#[test]
fn at_most_128_slots(rt: HostRuntime) -> Result<(), Fail> {
    let alloc = rt.alloc();
    let read = returning(alloc, Expr::Global(0, Width::W32))?;
    let most = function_of(alloc, 127, read)?;
    let graph = build(alloc, &most)?;
    assert_eq!(rt; graph.slots.len(), 128);
    let read = returning(alloc, Expr::Global(0, Width::W32))?;
    let more = function_of(alloc, 128, read)?;
    assert!(rt; matches!(build(alloc, &more), Err(BuildFault::Limit)));
    Ok(())
}

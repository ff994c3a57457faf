use crate::{
    Action, BinOp, Boxed, Edge, Expr, FuncGraph, FuncKind, GlobalDecl, Memory, Place, Placed,
    Program, Seq, Slot, Stmt, Target, Text, Width, same_function, slot_labels,
};
use std::alloc::Global;
use std::test::Fail;

#[test]
fn a_text_keeps_its_bytes(rt: HostRuntime) -> Result<(), Fail> {
    let text = Text::of(rt.alloc(), b"int main(void) { return 0; }")?;
    let copy = text.copy(rt.alloc())?;
    assert!(rt; copy.same(&text));
    assert_eq!(rt; copy.len(), 28);
    assert!(rt; copy.as_str().is_some());
    let broken = Text::of(rt.alloc(), b"\xff")?;
    assert!(rt; broken.as_str().is_none());
    Ok(())
}

#[test]
fn a_list_is_copied(rt: HostRuntime) -> Result<(), Fail> {
    let mut list: Seq<u16> = Seq::new(rt.alloc());
    assert!(rt; list.is_empty());
    list.push(7)?;
    list.push(9)?;
    let copy = list.copy(rt.alloc())?;
    assert_eq!(rt; copy.as_slice(), [7, 9].as_slice());
    assert_eq!(rt; copy.into_vec().len(), 2);
    Ok(())
}

#[test]
fn a_statement_is_copied(rt: HostRuntime) -> Result<(), Fail> {
    let alloc = rt.alloc();
    let left = Boxed::new(alloc, Expr::Local(1))?;
    let right = Boxed::new(alloc, Expr::Number(1, Width::W32))?;
    let next = Expr::Binary(BinOp::Add, left, right);
    let placed = Placed {
        place: Place { line: 3, column: 5 },
        stmt: Stmt::Assign(Target::Local(1), next),
    };
    let copy = placed.copy(alloc)?;
    assert_eq!(rt; copy.place.column, 5);
    assert!(rt; matches!(&copy.stmt, Stmt::Assign(Target::Local(1), _)));
    match &copy.stmt {
        Stmt::Assign(_, sum) => assert!(rt; is_next(sum)),
        _ => assert!(rt; false),
    }
    Ok(())
}

fn is_next(sum: &Expr) -> bool {
    match sum {
        Expr::Binary(BinOp::Add, a, b) => {
            matches!(a.get(), Expr::Local(1)) && matches!(b.get(), Expr::Number(1, Width::W32))
        }
        _ => false,
    }
}

fn slots_of(alloc: Global, width: Width) -> Result<Seq<Slot>, Memory> {
    let mut slots = Seq::new(alloc);
    slots.push(Slot {
        name: Text::of(alloc, b"")?,
        width: Width::W32,
    })?;
    slots.push(Slot {
        name: Text::of(alloc, b"x")?,
        width,
    })?;
    Ok(slots)
}

fn edges_of(alloc: Global, callee: u16, global: u16, mutex: u16) -> Result<Seq<Edge>, Memory> {
    let mut args = Seq::new(alloc);
    args.push(Expr::Local(1))?;
    let mut edges = Seq::new(alloc);
    edges.push(Edge {
        from: 0,
        act: Action::Lock(mutex),
        to: 2,
    })?;
    edges.push(Edge {
        from: 2,
        act: Action::Read(1, global),
        to: 3,
    })?;
    edges.push(Edge {
        from: 3,
        act: Action::Call(Some(1), callee, args),
        to: 1,
    })?;
    Ok(edges)
}

fn graph_of(
    alloc: Global,
    name: &[u8],
    line: u32,
    width: Width,
    edges: Seq<Edge>,
) -> Result<FuncGraph, Memory> {
    let mut nodes = Seq::new(alloc);
    nodes.push(Place { line, column: 1 })?;
    nodes.push(Place { line, column: 9 })?;
    Ok(FuncGraph {
        name: Text::of(alloc, name)?,
        kind: FuncKind::Int,
        params: 0,
        slots: slots_of(alloc, width)?,
        threads: Seq::new(alloc),
        nodes,
        edges,
    })
}

fn program_of(
    alloc: Global,
    first: FuncGraph,
    second: FuncGraph,
    names: &[&[u8]; 2],
) -> Result<Program, Memory> {
    let mut funcs = Seq::new(alloc);
    funcs.push(first)?;
    funcs.push(second)?;
    let mut globals = Seq::new(alloc);
    let mut mutexes = Seq::new(alloc);
    for name in names {
        globals.push(GlobalDecl {
            name: Text::of(alloc, name)?,
            width: Width::W32,
            initial: 0,
        })?;
        mutexes.push(Text::of(alloc, name)?)?;
    }
    Ok(Program {
        funcs,
        globals,
        mutexes,
        main: 0,
    })
}

#[test]
fn numbers_are_read_as_names(rt: HostRuntime) -> Result<(), Fail> {
    let alloc = rt.alloc();
    let main = graph_of(alloc, b"main", 1, Width::W32, edges_of(alloc, 1, 0, 1)?)?;
    let add = graph_of(alloc, b"add", 9, Width::W32, Seq::new(alloc))?;
    let a = program_of(alloc, main, add, &[b"g", b"h"])?;
    let add = graph_of(alloc, b"add", 2, Width::W32, Seq::new(alloc))?;
    let main = graph_of(alloc, b"main", 5, Width::W32, edges_of(alloc, 0, 1, 0)?)?;
    let b = program_of(alloc, add, main, &[b"h", b"g"])?;
    assert!(rt;
        same_function(&a, 0, &b, 1),
        "other numbers and places, the same names"
    );
    assert!(rt; same_function(&a, 1, &b, 0));
    assert!(rt; !same_function(&a, 0, &b, 0));
    assert!(rt; !same_function(&a, 2, &b, 2), "no such function");
    let add = graph_of(alloc, b"add", 2, Width::W32, Seq::new(alloc))?;
    let main = graph_of(alloc, b"main", 5, Width::W32, edges_of(alloc, 1, 0, 1)?)?;
    let c = program_of(alloc, add, main, &[b"h", b"g"])?;
    assert!(rt;
        !same_function(&a, 0, &c, 1),
        "the same numbers, other names"
    );
    Ok(())
}

#[test]
fn widths_and_the_order_of_edges_count(rt: HostRuntime) -> Result<(), Fail> {
    let alloc = rt.alloc();
    let long = graph_of(alloc, b"f", 1, Width::W64, edges_of(alloc, 1, 0, 1)?)?;
    let mut edges = edges_of(alloc, 1, 0, 1)?.into_vec();
    edges.reverse();
    let turned = graph_of(alloc, b"f", 1, Width::W32, Seq::from_vec(edges))?;
    let a = program_of(alloc, long, turned, &[b"g", b"h"])?;
    let plain = graph_of(alloc, b"f", 1, Width::W32, edges_of(alloc, 1, 0, 1)?)?;
    let again = graph_of(alloc, b"f", 1, Width::W32, edges_of(alloc, 0, 0, 1)?)?;
    let b = program_of(alloc, plain, again, &[b"g", b"h"])?;
    assert!(rt; !same_function(&a, 0, &b, 0));
    assert!(rt; !same_function(&a, 1, &b, 0));
    assert!(rt; same_function(&b, 0, &b, 1), "two functions of one name");
    Ok(())
}

fn named_slot(alloc: Global, name: &[u8]) -> Result<Slot, Fail> {
    Ok(Slot {
        name: Text::of(alloc, name)?,
        width: Width::W32,
    })
}

#[test]
fn a_second_slot_of_a_name_is_numbered(rt: HostRuntime) -> Result<(), Fail> {
    let alloc = rt.alloc();
    let mut slots = Vec::new(alloc);
    for name in [b"".as_slice(), b"x", b"y", b"x", b"", b"x"] {
        slots.push(named_slot(alloc, name)?)?;
    }
    let labels = slot_labels(alloc, slots.as_slice())?;
    let mut row = Vec::new(alloc);
    for label in labels.as_slice() {
        row.extend_from_slice(label.as_bytes())?;
        row.push(b';')?;
    }
    assert_eq!(rt; row.as_slice(), b";x;y;x#2;;x#3;".as_slice());
    Ok(())
}

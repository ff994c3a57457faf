use arg_graph::{Label, label_text};
use gob_tree::{
    Action, BinOp, Boxed, Edge, Expr, FuncGraph, FuncKind, GlobalDecl, Memory, Program, Seq, Slot,
    Text, UnOp, Width,
};
use std::alloc::Global;
use std::test::Fail;

fn push_slot(alloc: Global, slots: &mut Seq<Slot>, name: &[u8]) -> Result<(), Fail> {
    let name = Text::of(alloc, name)?;
    slots.push(Slot {
        name,
        width: Width::W32,
    })?;
    Ok(())
}

/// Those of `f(int n)` with locals x and n, and one temporary.
fn slots(alloc: Global) -> Result<Seq<Slot>, Fail> {
    let mut slots = Seq::new(alloc);
    push_slot(alloc, &mut slots, b"")?;
    push_slot(alloc, &mut slots, b"n")?;
    push_slot(alloc, &mut slots, b"x")?;
    push_slot(alloc, &mut slots, b"n")?;
    push_slot(alloc, &mut slots, b"")?;
    Ok(slots)
}

fn one<T>(alloc: Global, item: T) -> Result<Seq<T>, Memory>
where
    T: Drop,
{
    let mut items = Seq::new(alloc);
    items.push(item)?;
    Ok(items)
}

/// The function f, which has this one edge.
fn function(alloc: Global, act: Action) -> Result<FuncGraph, Fail> {
    let name = Text::of(alloc, b"f")?;
    let slots = slots(alloc)?;
    let threads = one(alloc, Text::of(alloc, b"t")?)?;
    let from = 0;
    let to = 1;
    let edges = one(alloc, Edge { from, act, to })?;
    Ok(FuncGraph {
        name,
        kind: FuncKind::Int,
        params: 1,
        slots,
        threads,
        nodes: Seq::new(alloc),
        edges,
    })
}

fn global(alloc: Global) -> Result<GlobalDecl, Fail> {
    Ok(GlobalDecl {
        name: Text::of(alloc, b"g")?,
        width: Width::W32,
        initial: 0,
    })
}

/// A program of f alone, with a global g and a mutex m.
fn program(alloc: Global, act: Action) -> Result<Program, Fail> {
    let mutexes = one(alloc, Text::of(alloc, b"m")?)?;
    let globals = one(alloc, global(alloc)?)?;
    let funcs = one(alloc, function(alloc, act)?)?;
    Ok(Program {
        funcs,
        globals,
        mutexes,
        main: 0,
    })
}

fn text(alloc: Global, act: Action, label: Label) -> Result<Text, Fail> {
    let program = program(alloc, act)?;
    Ok(label_text(alloc, &program, 0, label)?)
}

/// Whether the label of a function's one edge reads so.
fn reads(alloc: Global, act: Action, label: Label, wanted: &[u8]) -> Result<bool, Fail> {
    let shown = text(alloc, act, label)?;
    Ok(shown.as_bytes() == wanted)
}

/// Whether the edge, done, reads so.
fn is_done_as(alloc: Global, act: Action, wanted: &[u8]) -> Result<bool, Fail> {
    reads(alloc, act, Label::Do(0), wanted)
}

fn number(n: i64) -> Expr {
    Expr::Number(n, Width::W32)
}

fn sum(alloc: Global, a: Expr, b: Expr) -> Result<Expr, Fail> {
    Ok(Expr::Binary(BinOp::Add, Boxed::new(alloc, a)?, Boxed::new(alloc, b)?))
}

fn minus(alloc: Global, a: Expr) -> Result<Expr, Fail> {
    Ok(Expr::Unary(UnOp::Neg, Boxed::new(alloc, a)?))
}

#[test]
fn assignments_have_texts(rt: HostRuntime) -> Result<(), Fail> {
    let alloc = rt.alloc();
    let inner = sum(alloc, Expr::Local(3), number(12))?;
    let outer = sum(alloc, inner, Expr::Local(4))?;
    assert!(rt; is_done_as(alloc, Action::Assign(0, outer), b"return = (n#2 + 12) + $0")?);
    assert!(rt; is_done_as(alloc, Action::Read(1, 0), b"n = g")?);
    assert!(rt; is_done_as(alloc, Action::Write(0, number(-7)), b"g = -7")?);
    assert!(rt; is_done_as(alloc, Action::Nondet(2), b"x = any")?);
    Ok(())
}

#[test]
fn conditions_have_texts(rt: HostRuntime) -> Result<(), Fail> {
    let alloc = rt.alloc();
    let wanted = minus(alloc, Expr::Local(2))?;
    assert!(rt; is_done_as(alloc, Action::Guard(wanted, true), b"-(x)")?);
    assert!(rt; is_done_as(alloc, Action::Guard(Expr::Local(2), false), b"!(x)")?);
    assert!(rt; is_done_as(alloc, Action::Assert(number(1)), b"assert 1")?);
    Ok(())
}

#[test]
fn locks_have_texts(rt: HostRuntime) -> Result<(), Fail> {
    let alloc = rt.alloc();
    assert!(rt; is_done_as(alloc, Action::Lock(0), b"lock m")?);
    assert!(rt; is_done_as(alloc, Action::Unlock(0), b"unlock m")?);
    assert!(rt; is_done_as(alloc, Action::Skip, b"skip")?);
    Ok(())
}

#[test]
fn threads_have_texts(rt: HostRuntime) -> Result<(), Fail> {
    let alloc = rt.alloc();
    assert!(rt; is_done_as(alloc, Action::Create(0, 0), b"create f")?);
    assert!(rt; reads(alloc, Action::Create(0, 0), Label::Thread(0), b"thread f")?);
    assert!(rt; is_done_as(alloc, Action::Join(0), b"join t")?);
    Ok(())
}

#[test]
fn calls_have_texts(rt: HostRuntime) -> Result<(), Fail> {
    let alloc = rt.alloc();
    let mut args = Seq::new(alloc);
    args.push(number(0))?;
    args.push(Expr::Local(2))?;
    assert!(rt;
        reads(
            alloc,
            Action::Call(None, 0, args),
            Label::Over(0),
            b"over f(0, x)"
        )?
    );
    let none = Seq::new(alloc);
    assert!(rt;
        reads(
            alloc,
            Action::Call(None, 0, none),
            Label::Enter(0),
            b"into f()"
        )?
    );
    Ok(())
}

#[test]
fn what_no_edge_bears_has_no_text(rt: HostRuntime) -> Result<(), Fail> {
    let alloc = rt.alloc();
    assert!(rt; reads(alloc, Action::Skip, Label::Leave, b"leave")?);
    assert!(rt; reads(alloc, Action::Skip, Label::Over(0), b"")?);
    assert!(rt; reads(alloc, Action::Skip, Label::Thread(0), b"")?);
    assert!(rt; reads(alloc, Action::Skip, Label::Do(1), b"")?);
    Ok(())
}

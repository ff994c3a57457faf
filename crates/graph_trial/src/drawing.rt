//! A graph as text: the places of its nodes, the widths of its slots, and its edges in order.
use cfg_build::{build, silent_edges};
use gob_tree::{Action, BinOp, Edge, Expr, Function, Place, Slot, UnOp, Width};
use std::alloc::{AllocError, Global};
use std::test::Fail;

/// The graph of a function: a line of places, a line of widths, and a line an edge with its two
/// ends, its action with all operands (`%` a slot, `@` a global), and whether it is silent.
pub(crate) fn drawn(alloc: Global, function: &Function) -> Result<String, Fail> {
    let graph = build(alloc, function)?;
    let marks = silent_edges(alloc, function)?;
    let mut out = String::new(alloc);
    push_nodes(&mut out, graph.nodes.as_slice())?;
    push_slots(&mut out, graph.slots.as_slice())?;
    for (edge, silent) in graph.edges.as_slice().iter().zip(marks.as_slice()) {
        push_edge(&mut out, edge, *silent)?;
    }
    Ok(out)
}

/// Lines, each with a line feed behind it.
pub(crate) fn lines(alloc: Global, lines: &[&str]) -> Result<String, AllocError> {
    let mut out = String::new(alloc);
    for line in lines {
        out.push_str(line)?;
        out.push('\n')?;
    }
    Ok(out)
}

fn push_nodes(out: &mut String, nodes: &[Place]) -> Result<(), AllocError> {
    out.push_str("nodes")?;
    for place in nodes {
        let Place { line, column } = *place;
        write!(out, " {line}:{column}")?;
    }
    out.push('\n')
}

fn push_slots(out: &mut String, slots: &[Slot]) -> Result<(), AllocError> {
    out.push_str("slots")?;
    for slot in slots {
        out.push_str(match slot.width {
            Width::W32 => " int",
            Width::W64 => " long",
        })?;
    }
    out.push('\n')
}

fn push_edge(out: &mut String, edge: &Edge, silent: bool) -> Result<(), AllocError> {
    let from = edge.from;
    let to = edge.to;
    write!(out, "{from} ")?;
    push_action(out, &edge.act)?;
    write!(out, " -> {to}")?;
    if silent {
        out.push_str(", silent")?;
    }
    out.push('\n')
}

fn push_action(out: &mut String, act: &Action) -> Result<(), AllocError> {
    match act {
        Action::Assign(x, e) => {
            write!(out, "%{x} = ")?;
            push_expr(out, e)
        }
        Action::Read(x, g) => write!(out, "%{x} = @{g}"),
        Action::Write(g, e) => {
            write!(out, "@{g} = ")?;
            push_expr(out, e)
        }
        Action::Nondet(x) => write!(out, "%{x} = ?"),
        Action::Guard(e, wanted) => {
            out.push_str(if *wanted { "if " } else { "unless " })?;
            push_expr(out, e)
        }
        Action::Assert(e) => {
            out.push_str("assert ")?;
            push_expr(out, e)
        }
        Action::Lock(m) => write!(out, "lock {m}"),
        Action::Unlock(m) => write!(out, "unlock {m}"),
        Action::Create(t, f) => write!(out, "create t{t} f{f}"),
        Action::Join(t) => write!(out, "join t{t}"),
        Action::Call(d, f, args) => push_call(out, d, *f, args.as_slice()),
        Action::Skip => out.push_str("skip"),
    }
}

fn push_call(out: &mut String, d: &Option<u16>, f: u16, args: &[Expr]) -> Result<(), AllocError> {
    if let Some(x) = d {
        write!(out, "%{x} = ")?;
    }
    write!(out, "call f{f}")?;
    for arg in args {
        out.push(' ')?;
        push_expr(out, arg)?;
    }
    Ok(())
}

/// An expression of an edge, which has no inputs; a number of 64 bits has an L behind it.
fn push_expr(out: &mut String, e: &Expr) -> Result<(), AllocError> {
    match e {
        Expr::Number(n, Width::W32) => write!(out, "{n}"),
        Expr::Number(n, Width::W64) => write!(out, "{n}L"),
        Expr::Local(x) => write!(out, "%{x}"),
        Expr::Unary(op, a) => {
            out.push(match *op {
                UnOp::Neg => '-',
                UnOp::Not => '!',
            })?;
            push_expr(out, a.get())
        }
        Expr::Binary(op, a, b) => {
            out.push('(')?;
            push_expr(out, a.get())?;
            out.push_str(sign(*op))?;
            push_expr(out, b.get())?;
            out.push(')')
        }
        _ => out.push_str("an input"),
    }
}

fn sign(op: BinOp) -> &'static str {
    match op {
        BinOp::Add => " + ",
        BinOp::Sub => " - ",
        BinOp::Mul => " * ",
        BinOp::Div => " / ",
        BinOp::Rem => " % ",
        BinOp::Lt => " < ",
        BinOp::Le => " <= ",
        BinOp::Gt => " > ",
        BinOp::Ge => " >= ",
        BinOp::Eq => " == ",
        BinOp::Ne => " != ",
        BinOp::And => " && ",
        BinOp::Or => " || ",
    }
}

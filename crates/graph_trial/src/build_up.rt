//! Small functions, built by hand.
use crate::drawing::drawn;
use gob_tree::{
    BinOp, Boxed, Expr, FuncKind, Function, Memory, Place, Placed, Seq, Slot, Stmt, Target, Text,
    Width,
};
use std::alloc::Global;
use std::test::Fail;

pub(crate) fn int(n: i64) -> Expr {
    Expr::Number(n, Width::W32)
}

/// The slot of x, an int.
pub(crate) const X: u16 = 1;

/// The slot of y, a long.
pub(crate) const Y: u16 = 2;

/// The global g, an int.
pub(crate) fn g() -> Expr {
    Expr::Global(0, Width::W32)
}

/// The global h, a long.
pub(crate) fn h() -> Expr {
    Expr::Global(1, Width::W64)
}

pub(crate) fn at(line: u32, column: u32, stmt: Stmt) -> Placed {
    Placed {
        place: Place { line, column },
        stmt,
    }
}

/// A part of a statement, which stands in line 2.
pub(crate) fn part(alloc: Global, column: u32, stmt: Stmt) -> Result<Boxed<Placed>, Memory> {
    Boxed::new(alloc, at(2, column, stmt))
}

/// Two statements in line 2.
pub(crate) fn two(alloc: Global, a: (u32, Stmt), b: (u32, Stmt)) -> Result<Seq<Placed>, Memory> {
    let mut list = Seq::new(alloc);
    list.push(at(2, a.0, a.1))?;
    list.push(at(2, b.0, b.1))?;
    Ok(list)
}

pub(crate) fn set(x: u16, e: Expr) -> Stmt {
    Stmt::Assign(Target::Local(x), e)
}

pub(crate) fn binary(alloc: Global, op: BinOp, a: Expr, b: Expr) -> Result<Expr, Memory> {
    Ok(Expr::Binary(op, Boxed::new(alloc, a)?, Boxed::new(alloc, b)?))
}

fn slot(alloc: Global, width: Width) -> Result<Slot, Memory> {
    let name = Text::of(alloc, b"")?;
    Ok(Slot { name, width })
}

/// `int main(void)` with this body, at 1:5 to 9:1, with x and y behind its result.
pub(crate) fn main_of(alloc: Global, body: Seq<Placed>) -> Result<Function, Memory> {
    let mut slots = Seq::new(alloc);
    slots.push(slot(alloc, Width::W32)?)?;
    slots.push(slot(alloc, Width::W32)?)?;
    slots.push(slot(alloc, Width::W64)?)?;
    Ok(Function {
        name: Text::of(alloc, b"main")?,
        place: Place { line: 1, column: 5 },
        end: Place { line: 9, column: 1 },
        kind: FuncKind::Int,
        params: 0,
        slots,
        threads: Seq::new(alloc),
        body,
    })
}

/// The graph of `main` with this body.
pub(crate) fn drawn_body(alloc: Global, body: Seq<Placed>) -> Result<String, Fail> {
    let function = main_of(alloc, body)?;
    drawn(alloc, &function)
}

/// The same of one statement at 2:3, behind which comes `return 0;` at 3:3, at node 3.
pub(crate) fn drawn_one(alloc: Global, stmt: Stmt) -> Result<String, Fail> {
    let mut body = Seq::new(alloc);
    body.push(at(2, 3, stmt))?;
    body.push(at(3, 3, Stmt::Return(Some(int(0)))))?;
    drawn_body(alloc, body)
}

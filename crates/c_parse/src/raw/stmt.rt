use crate::raw::expr::{RawExpr, RawName};
use gob_tree::{Boxed, Place, Seq, Width};

/// What stands behind `return`: nothing, `NULL`, or a value.
#[derive(Drop)]
pub enum RawReturn {
    Plain,
    Null,
    Value(RawExpr),
}

/// A statement (C17, 6.8) with its names as written. A declaration of several names is a `Declare`
/// for each. `x op= e`, `x++`, `++x`, `x--` and `--x` are assignments. In `Create` the first name
/// is that of the thread variable and the second that of the function; the parts of a `For` are
/// the first part, the condition, the last part and the body.
#[cycle(raw_stmt)]
#[derive(Drop)]
pub enum RawStmt {
    Declare(Width, RawName, Option<RawExpr>),
    DeclareThread(RawName),
    Assign(RawName, RawExpr),
    CallOnly(RawName, Seq<RawExpr>),
    If(RawExpr, Boxed<RawPlaced>, Option<Boxed<RawPlaced>>),
    While(RawExpr, Boxed<RawPlaced>),
    DoWhile(Boxed<RawPlaced>, RawExpr),
    For(Seq<RawPlaced>, Option<RawExpr>, Option<Boxed<RawPlaced>>, Boxed<RawPlaced>),
    Block(Seq<RawPlaced>),
    Break,
    Continue,
    Return(RawReturn),
    Create(RawName, RawName),
    Join(RawName),
    Lock(RawName),
    Unlock(RawName),
    Assert(RawExpr),
    Empty,
}

/// A statement with the place of its first token. Of the names that one declaration declares, each
/// but the first has the place of the name.
#[cycle(raw_stmt)]
#[derive(Drop)]
pub struct RawPlaced {
    pub place: Place,
    pub stmt: RawStmt,
}

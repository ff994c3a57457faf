ghost use Rattle.std.specs.Prelude.{◌≡◌, IfOk};

use crate::boxed::Boxed;
use crate::memory::Memory;
use crate::seq::Seq;
use std::alloc::Global;

/// The width of a number: 32 bits for the type `int`, 64 for the type `long`.
#[derive(Clone, Copy, Debug, PartialEq, Eq)]
pub enum Width {
    W32,
    W64,
}

/// A prefix operator (C17, 6.5.3.3); a prefix `+` leaves no trace in a tree.
#[derive(Clone, Copy, Debug, PartialEq, Eq)]
pub enum UnOp {
    Neg,
    Not,
}

/// A binary operator (C17, 6.5.5 to 6.5.14).
#[derive(Clone, Copy, Debug, PartialEq, Eq)]
pub enum BinOp {
    Add,
    Sub,
    Mul,
    Div,
    Rem,
    Lt,
    Le,
    Gt,
    Ge,
    Eq,
    Ne,
    And,
    Or,
}

/// An expression. Locals, globals and functions are named by their numbers in the program;
/// `Nondet` is an arbitrary number of a width. A global carries the width of its declaration, and
/// a call that of the called function's result.
#[derive(Drop)]
pub enum Expr {
    Number(i64, Width),
    Local(u16),
    Global(u16, Width),
    Nondet(Width),
    Unary(UnOp, Boxed<Expr>),
    Binary(BinOp, Boxed<Expr>, Boxed<Expr>),
    Call(u16, Width, Seq<Expr>),
}

impl Expr {
    /// An equal expression; `Memory` is want of memory.
    pub fn copy(&self, alloc: Global) -> Result<Expr, Memory>
        ensures { IfOk result (λ e. e ≡ self.now) }
    {
        match self {
            Expr::Number(n, w) => Ok(Expr::Number(*n, *w)),
            Expr::Local(x) => Ok(Expr::Local(*x)),
            Expr::Global(x, w) => Ok(Expr::Global(*x, *w)),
            Expr::Nondet(w) => Ok(Expr::Nondet(*w)),
            Expr::Unary(op, a) => {
                let a = a.get().copy(alloc)?;
                Ok(Expr::Unary(*op, Boxed::new(alloc, a)?))
            }
            Expr::Binary(op, a, b) => {
                let a = Boxed::new(alloc, a.get().copy(alloc)?)?;
                let b = Boxed::new(alloc, b.get().copy(alloc)?)?;
                Ok(Expr::Binary(*op, a, b))
            }
            Expr::Call(f, w, args) => {
                let mut list = Seq::new(alloc);
                for arg in args.as_slice() {
                    let item = arg.copy(alloc)?;
                    list.push(item)?;
                }
                Ok(Expr::Call(*f, *w, list))
            }
        }
    }
}

/// An equal list of expressions; `Memory` is want of memory.
pub fn copy_exprs(alloc: Global, exprs: &[Expr]) -> Result<Seq<Expr>, Memory>
    ensures { IfOk result (λ s. s ≡ exprs.now) }
{
    let mut list = Seq::new(alloc);
    for expr in exprs {
        let item = expr.copy(alloc)?;
        list.push(item)?;
    }
    Ok(list)
}

/// An equal expression, or none; `Memory` is want of memory.
pub(crate) fn copy_optional(alloc: Global, expr: &Option<Expr>) -> Result<Option<Expr>, Memory>
    ensures { IfOk result (λ o. o ≡ expr.now) }
{
    match expr {
        None => Ok(None),
        Some(expr) => {
            let copy = expr.copy(alloc)?;
            Ok(Some(copy))
        }
    }
}

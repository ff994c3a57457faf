ghost use Rattle.std.specs.Prelude.{◌≡◌, IfOk};

use crate::boxed::Boxed;
use crate::expr::{Expr, copy_exprs, copy_optional};
use crate::memory::Memory;
use crate::place::Place;
use crate::seq::Seq;
use std::alloc::Global;

/// What an assignment writes: a local by its slot, or a global.
#[derive(Clone, Copy, Debug, PartialEq, Eq)]
pub enum Target {
    Local(u16),
    Global(u16),
}

/// A statement (C17, 6.8) with its names resolved to numbers. In `Create` the first number is the
/// thread variable and the second the function; the parts of a `For` are the first part, the
/// condition, the last part and the body.
#[cycle(stmt)]
#[derive(Drop)]
pub enum Stmt {
    Declare(u16, Option<Expr>),
    DeclareThread(u16),
    Assign(Target, Expr),
    CallOnly(u16, Seq<Expr>),
    If(Expr, Boxed<Placed>, Option<Boxed<Placed>>),
    While(Expr, Boxed<Placed>),
    DoWhile(Boxed<Placed>, Expr),
    For(Seq<Placed>, Option<Expr>, Option<Boxed<Placed>>, Boxed<Placed>),
    Block(Seq<Placed>),
    Break,
    Continue,
    Return(Option<Expr>),
    Create(u16, u16),
    Join(u16),
    Lock(u16),
    Unlock(u16),
    Assert(Expr),
    Empty,
}

/// A statement with the place of its first token.
#[cycle(stmt)]
#[derive(Drop)]
pub struct Placed {
    pub place: Place,
    pub stmt: Stmt,
}

impl Placed {
    /// An equal statement at the same place; `Memory` is want of memory.
    #[cycle(copy_stmt)]
    pub fn copy(&self, alloc: Global) -> Result<Placed, Memory>
        ensures { IfOk result (λ p. p ≡ self.now) }
    {
        let stmt = self.stmt.copy(alloc)?;
        Ok(Placed {
            place: self.place,
            stmt,
        })
    }
}

#[cycle(copy_stmt)]
fn copy_placed(alloc: Global, all: &[Placed]) -> Result<Seq<Placed>, Memory>
    ensures { IfOk result (λ s. s ≡ all.now) }
{
    let mut list = Seq::new(alloc);
    for placed in all {
        let item = placed.copy(alloc)?;
        list.push(item)?;
    }
    Ok(list)
}

#[cycle(copy_stmt)]
fn copy_optional_part(
    alloc: Global,
    part: &Option<Boxed<Placed>>,
) -> Result<Option<Boxed<Placed>>, Memory>
    ensures { IfOk result (λ p. p ≡ part.now) }
{
    match part {
        None => Ok(None),
        Some(part) => {
            let copy = part.get().copy(alloc)?;
            Ok(Some(Boxed::new(alloc, copy)?))
        }
    }
}

impl Stmt {
    /// An equal statement; `Memory` is want of memory.
    #[cycle(copy_stmt)]
    pub fn copy(&self, alloc: Global) -> Result<Stmt, Memory>
        ensures { IfOk result (λ s. s ≡ self.now) }
    {
        match self {
            Stmt::Declare(x, e) => Ok(Stmt::Declare(*x, copy_optional(alloc, e)?)),
            Stmt::DeclareThread(t) => Ok(Stmt::DeclareThread(*t)),
            Stmt::Assign(to, e) => Ok(Stmt::Assign(*to, e.copy(alloc)?)),
            Stmt::CallOnly(f, args) => Ok(Stmt::CallOnly(*f, copy_exprs(alloc, args.as_slice())?)),
            Stmt::If(e, a, b) => {
                let e = e.copy(alloc)?;
                let a = Boxed::new(alloc, a.get().copy(alloc)?)?;
                let b = copy_optional_part(alloc, b)?;
                Ok(Stmt::If(e, a, b))
            }
            Stmt::While(e, a) => {
                let e = e.copy(alloc)?;
                let a = Boxed::new(alloc, a.get().copy(alloc)?)?;
                Ok(Stmt::While(e, a))
            }
            Stmt::DoWhile(a, e) => {
                let a = Boxed::new(alloc, a.get().copy(alloc)?)?;
                let e = e.copy(alloc)?;
                Ok(Stmt::DoWhile(a, e))
            }
            Stmt::For(first, test, last, body) => {
                let first = copy_placed(alloc, first.as_slice())?;
                let test = copy_optional(alloc, test)?;
                let last = copy_optional_part(alloc, last)?;
                let body = Boxed::new(alloc, body.get().copy(alloc)?)?;
                Ok(Stmt::For(first, test, last, body))
            }
            Stmt::Block(all) => Ok(Stmt::Block(copy_placed(alloc, all.as_slice())?)),
            Stmt::Break => Ok(Stmt::Break),
            Stmt::Continue => Ok(Stmt::Continue),
            Stmt::Return(e) => Ok(Stmt::Return(copy_optional(alloc, e)?)),
            Stmt::Create(t, f) => Ok(Stmt::Create(*t, *f)),
            Stmt::Join(t) => Ok(Stmt::Join(*t)),
            Stmt::Lock(m) => Ok(Stmt::Lock(*m)),
            Stmt::Unlock(m) => Ok(Stmt::Unlock(*m)),
            Stmt::Assert(e) => Ok(Stmt::Assert(e.copy(alloc)?)),
            Stmt::Empty => Ok(Stmt::Empty),
        }
    }
}

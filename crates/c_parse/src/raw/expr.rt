ghost use Rattle.std.specs.Prelude.{◌≡◌, IfOk};

use gob_tree::{BinOp, Boxed, Memory, Place, Seq, Text, UnOp, Width};
use std::alloc::Global;

/// A name with the place of its first byte.
#[derive(Drop)]
pub struct RawName {
    pub text: Text,
    pub place: Place,
}

impl RawName {
    /// An equal name; `Memory` is want of memory.
    pub fn copy(&self, alloc: Global) -> Result<RawName, Memory>
        ensures { IfOk result (λ x. x ≡ self.now) }
    {
        let text = self.text.copy(alloc)?;
        Ok(RawName {
            text,
            place: self.place,
        })
    }
}

/// An expression (C17, 6.5) with its names as written. A number is from 0 to 9223372036854775807;
/// it has 64 bits where it is written with a suffix or is above 2147483647.
#[derive(Drop)]
pub enum RawExpr {
    Number(i64, Width),
    Name(RawName),
    Unary(UnOp, Boxed<RawExpr>),
    Binary(BinOp, Boxed<RawExpr>, Boxed<RawExpr>),
    Call(RawName, Seq<RawExpr>),
}

impl RawExpr {
    /// An equal expression; `Memory` is want of memory.
    pub fn copy(&self, alloc: Global) -> Result<RawExpr, Memory>
        ensures { IfOk result (λ e. e ≡ self.now) }
    {
        match self {
            RawExpr::Number(n, w) => Ok(RawExpr::Number(*n, *w)),
            RawExpr::Name(x) => Ok(RawExpr::Name(x.copy(alloc)?)),
            RawExpr::Unary(op, a) => {
                let a = a.get().copy(alloc)?;
                Ok(RawExpr::Unary(*op, Boxed::new(alloc, a)?))
            }
            RawExpr::Binary(op, a, b) => {
                let a = Boxed::new(alloc, a.get().copy(alloc)?)?;
                let b = Boxed::new(alloc, b.get().copy(alloc)?)?;
                Ok(RawExpr::Binary(*op, a, b))
            }
            RawExpr::Call(f, args) => {
                let f = f.copy(alloc)?;
                let mut list = Seq::new(alloc);
                for arg in args.as_slice() {
                    let item = arg.copy(alloc)?;
                    list.push(item)?;
                }
                Ok(RawExpr::Call(f, list))
            }
        }
    }
}

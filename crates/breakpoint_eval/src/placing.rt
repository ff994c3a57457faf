//! Expressions with their names as places.
ghost use Rattle.std.specs.Prelude.{◌≡◌, ◌≤◌, IfOk, length};
ghost use Rattle.breakpoint_eval.specs.Names.{place_named};
ghost use Rattle.breakpoint_eval.specs.Placing.{placed};

use crate::naming::place_named;
use c_parse::RawExpr;
use gob_tree::{Boxed, Expr, GlobalDecl, Memory, Slot};
use std::alloc::Global;

/// The expression with each name as the place of what it stands for; `None` exactly where one of them
/// stands for nothing, as the name of a function does. `Memory` is want of memory.
pub(crate) fn placed(
    alloc: Global,
    slots: &[Slot],
    globals: &[GlobalDecl],
    e: &RawExpr,
) -> Result<Option<Expr>, Memory>
    requires slots { length slots.now ≤ 128 }
    requires globals { length globals.now ≤ 64 }
    ensures { IfOk result (λ x. x ≡ placed (place_named slots.now globals.now) e.now) }
{
    match e {
        RawExpr::Number(n, w) => Ok(Some(Expr::Number(*n, *w))),
        RawExpr::Name(x) => match place_named(slots, globals, x.text.as_bytes()) {
            Some(place) => Ok(Some(Expr::Local(place))),
            None => Ok(None),
        },
        RawExpr::Unary(op, a) => {
            let Some(a) = placed(alloc, slots, globals, a.get())? else {
                return Ok(None);
            };
            Ok(Some(Expr::Unary(*op, Boxed::new(alloc, a)?)))
        }
        RawExpr::Binary(op, a, b) => {
            let Some(a) = placed(alloc, slots, globals, a.get())? else {
                return Ok(None);
            };
            let Some(b) = placed(alloc, slots, globals, b.get())? else {
                return Ok(None);
            };
            let a = Boxed::new(alloc, a)?;
            let b = Boxed::new(alloc, b)?;
            Ok(Some(Expr::Binary(*op, a, b)))
        }
        RawExpr::Call(_, _) => Ok(None),
    }
}

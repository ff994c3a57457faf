//! Conditions that compare one local with one number.
ghost use Rattle.std.specs.Prelude.{◌≡◌, ◌<◌, IfSome};
ghost use Rattle.breakpoint_eval.specs.Comparisons.{IsComparison, comparison_of, turned_of};

use gob_tree::{BinOp, Expr};
use lane_bounds::Cmp;

/// A comparison of a slot with a number.
#[derive(Clone, Copy)]
pub(crate) struct Compared {
    pub slot: u16,
    pub op: Cmp,
    pub number: i64,
}

/// The comparison that an expression over places is, where it compares one of so many slots with one
/// number.
pub(crate) fn as_comparison(x: &Expr, slots: usize) -> Option<Compared>
    ensures comparison { IfSome result (λ by. IsComparison x.now by) }
    ensures slot { IfSome result (λ by. by.slot < slots) }
{
    match x {
        Expr::Binary(op, a, b) => match (a.get(), b.get()) {
            (Expr::Local(slot), Expr::Number(n, _)) => by(comparison(*op)?, *slot, *n, slots),
            (Expr::Number(n, _), Expr::Local(slot)) => {
                by(turned(comparison(*op)?), *slot, *n, slots)
            }
            _ => None,
        },
        _ => None,
    }
}

fn by(op: Cmp, slot: u16, number: i64, slots: usize) -> Option<Compared>
    ensures { IfSome result (λ by. (by.slot ≡ slot) × (by.op ≡ op) × (by.number ≡ number) × (slot < slots)) }
{
    if (slot as usize) < slots {
        Some(Compared { slot, op, number })
    } else {
        None
    }
}

fn comparison(op: BinOp) -> Option<Cmp>
    ensures { result ≡ comparison_of op }
{
    match op {
        BinOp::Lt => Some(Cmp::Lt),
        BinOp::Le => Some(Cmp::Le),
        BinOp::Gt => Some(Cmp::Gt),
        BinOp::Ge => Some(Cmp::Ge),
        BinOp::Eq => Some(Cmp::Eq),
        BinOp::Ne => Some(Cmp::Ne),
        _ => None,
    }
}

/// The comparison with its operands exchanged.
fn turned(op: Cmp) -> Cmp
    ensures { result ≡ turned_of op }
{
    match op {
        Cmp::Lt => Cmp::Gt,
        Cmp::Le => Cmp::Ge,
        Cmp::Gt => Cmp::Lt,
        Cmp::Ge => Cmp::Le,
        Cmp::Eq => Cmp::Eq,
        Cmp::Ne => Cmp::Ne,
    }
}

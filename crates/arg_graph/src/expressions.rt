//! The texts of slots and expressions.
ghost use Rattle.std.specs.Prelude.{◌≡◌, ◌++◌, ◌<◌, ◌≤◌, ◌^◌, List, ℕ, IfOk, OnOk, codes, length};
ghost use Rattle.arg_graph.specs.Texts as spec;

use crate::pieces::{push_bytes, push_number, push_signed};
use gob_tree::{BinOp, Expr, Memory, Seq, Slot, Text, UnOp, slot_labels};
use std::alloc::Global;

/// What a function's slots are called: slot 0 is `return`, a local goes by its label, and the
/// temporaries are `$0`, `$1` and so on. `Memory` is want of memory.
pub fn slot_names(alloc: Global, slots: &[Slot]) -> Result<Seq<Text>, Memory>
    ensures { IfOk result (λ names. names ≡ spec.slot_names slots.now) }
{
    let labels = slot_labels(alloc, slots)?;
    let mut names = Seq::new(alloc);
    if !labels.is_empty() {
        names.push(Text::of(alloc, b"return")?)?;
        push_names(alloc, &mut names, &labels.as_slice()[1..])?;
    }
    Ok(names)
}

fn push_names(alloc: Global, names: &mut Seq<Text>, labels: &[Text]) -> Result<(), Memory>
    ensures { OnOk result (names.new ≡ names.old ++ spec.names_from 0 labels.now) }
{
    let mut temporaries = 0;
    for label in labels {
        names.push(name(alloc, label, temporaries)?)?;
        if label.is_empty() {
            temporaries += 1;
        }
    }
    Ok(())
}

/// The name of a slot with a label, or of a temporary after so many others.
fn name(alloc: Global, label: &Text, temporaries: usize) -> Result<Text, Memory>
    ensures { IfOk result (λ text. text ≡ spec.name_of temporaries label.now) }
{
    if !label.is_empty() {
        return label.copy(alloc);
    }
    let mut bytes = Vec::from_slice(alloc, b"$")?;
    push_number(&mut bytes, temporaries)?;
    Text::of(alloc, bytes.as_slice())
}

/// Adds the name of a slot.
pub(crate) fn push_name(out: &mut Vec<u8>, names: &[Text], slot: u16) -> Result<(), Memory>
    ensures { OnOk result (out.new.items ≡ out.old.items ++ spec.name_at names.now slot) }
{
    match names.get(slot as usize) {
        Some(name) => push_bytes(out, name.as_bytes()),
        None => Ok(()),
    }
}

/// Adds an expression of an edge, whose locals have these names.
pub(crate) fn push_expr(out: &mut Vec<u8>, names: &[Text], e: &Expr) -> Result<(), Memory>
    ensures { OnOk result (out.new.items ≡ out.old.items ++ spec.expr_text names.now e.now) }
{
    match e {
        Expr::Number(n, _) => push_signed(out, *n),
        Expr::Local(x) => push_name(out, names, *x),
        Expr::Unary(op, a) => {
            push_bytes(out, prefix(*op))?;
            push_bytes(out, b"(")?;
            push_expr(out, names, a.get())?;
            push_bytes(out, b")")
        }
        Expr::Binary(op, a, b) => {
            let left = a.get();
            let right = b.get();
            push_bytes(out, opening(left))?;
            push_expr(out, names, left)?;
            push_bytes(out, closing(left))?;
            push_bytes(out, operator(*op))?;
            push_bytes(out, opening(right))?;
            push_expr(out, names, right)?;
            push_bytes(out, closing(right))?;
            Ok(())
        }
        Expr::Global(..) | Expr::Nondet(_) | Expr::Call(..) => Ok(()),
    }
}

fn has_operator(e: &Expr) -> bool
    ensures { (names : List (List ℕ)) → result ≡ (spec.shown names e.now).compound }
{
    match e {
        Expr::Unary(..) | Expr::Binary(..) => true,
        Expr::Number(..) | Expr::Local(_) => false,
        Expr::Global(..) | Expr::Nondet(_) | Expr::Call(..) => false,
    }
}

/// What stands before an operand.
fn opening(e: &Expr) -> &'static [u8]
    ensures { (names : List (List ℕ)) → result.now ≡ spec.opening (spec.shown names e.now).compound }
{
    if has_operator(e) { b"(" } else { b"" }
}

/// What stands behind an operand.
fn closing(e: &Expr) -> &'static [u8]
    ensures { (names : List (List ℕ)) → result.now ≡ spec.closing (spec.shown names e.now).compound }
{
    if has_operator(e) { b")" } else { b"" }
}

fn prefix(op: UnOp) -> &'static [u8]
    ensures { result.now ≡ spec.prefix_text op }
{
    match op {
        UnOp::Neg => b"-",
        UnOp::Not => b"!",
    }
}

fn operator(op: BinOp) -> &'static [u8]
    ensures { result.now ≡ spec.operator_text op }
{
    match op {
        BinOp::Add => b" + ",
        BinOp::Sub => b" - ",
        BinOp::Mul => b" * ",
        BinOp::Div => b" / ",
        BinOp::Rem => b" % ",
        BinOp::Lt => b" < ",
        BinOp::Le => b" <= ",
        BinOp::Gt => b" > ",
        BinOp::Ge => b" >= ",
        BinOp::Eq => b" == ",
        BinOp::Ne => b" != ",
        BinOp::And => b" && ",
        BinOp::Or => b" || ",
    }
}

//! Statements, with numbers for names.

ghost use Rattle.std.specs.Prelude.{◌≡◌, map};
ghost use Rattle.std.specs.Option.{option_map};
ghost use Rattle.c_check.specs.Faults.{Reads};
ghost use Rattle.c_check.specs.Bodies.{reading_of, reading_at, sequence_faults, sequence_becomes, sequence_after, part_faults, part_becomes, part_after};

use crate::exprs::{expr, optional_expr};
use crate::fault::FrontFault;
use crate::scope::{BodyScope, FileScope};
use crate::simple::simple;
use c_parse::{RawPlaced, RawStmt};
use gob_tree::{Boxed, Place, Placed, Seq, Stmt};
use std::alloc::Global;

/// A statement at its place.
#[cycle(stmt)]
fn placed(
    alloc: Global,
    file: &FileScope,
    body: &mut BodyScope,
    in_loop: bool,
    raw: &RawPlaced,
) -> Result<Placed, FrontFault>
    ensures { let reading = reading_of file.now raw.now in Reads result (reading.faults in_loop body.old) (reading.becomes body.old) body.new (reading.after body.old) }
{
    let stmt = stmt(alloc, file, body, in_loop, &raw.stmt, raw.place)?;
    Ok(Placed {
        place: raw.place,
        stmt,
    })
}

/// The same on the heap.
#[tactic(auto, using(crate::proofs::Firsts::want_is_first))]
#[cycle(stmt)]
fn boxed(
    alloc: Global,
    file: &FileScope,
    body: &mut BodyScope,
    in_loop: bool,
    raw: &RawPlaced,
) -> Result<Boxed<Placed>, FrontFault>
    ensures { let reading = reading_of file.now raw.now in Reads result (reading.faults in_loop body.old) (reading.becomes body.old) body.new (reading.after body.old) }
{
    let found = placed(alloc, file, body, in_loop, raw)?;
    Ok(Boxed::new(alloc, found)?)
}

/// A statement that may be missing.
#[tactic(auto, using(crate::proofs::Firsts::want_is_first))]
#[cycle(stmt)]
fn part(
    alloc: Global,
    file: &FileScope,
    body: &mut BodyScope,
    in_loop: bool,
    raw: &Option<Boxed<RawPlaced>>,
) -> Result<Option<Boxed<Placed>>, FrontFault>
    ensures { let reading = option_map (reading_of file.now) raw.now in Reads result (part_faults reading in_loop body.old) (part_becomes reading body.old) body.new (part_after reading body.old) }
{
    match raw {
        None => Ok(None),
        Some(raw) => {
            let found = boxed(alloc, file, body, in_loop, raw.get())?;
            Ok(Some(found))
        }
    }
}

/// Statements one after the other.
#[tactic(auto, using(crate::proofs::Firsts::want_is_first))]
#[cycle(stmt)]
pub(crate) fn sequence(
    alloc: Global,
    file: &FileScope,
    body: &mut BodyScope,
    in_loop: bool,
    raw: &[RawPlaced],
) -> Result<Seq<Placed>, FrontFault>
    ensures { let readings = map (reading_of file.now) raw.now in Reads result (sequence_faults readings in_loop body.old) (sequence_becomes readings body.old) body.new (sequence_after readings body.old) }
{
    let mut list = Seq::new(alloc);
    for one in raw {
        let item = placed(alloc, file, body, in_loop, one)?;
        list.push(item)?;
    }
    Ok(list)
}

/// A statement without its place.
#[tactic(auto, using(crate::proofs::Firsts::want_is_first))]
#[cycle(stmt)]
fn stmt(
    alloc: Global,
    file: &FileScope,
    body: &mut BodyScope,
    in_loop: bool,
    raw: &RawStmt,
    place: Place,
) -> Result<Stmt, FrontFault>
    ensures { let reading = reading_at file.now raw.now place in Reads result (reading.faults in_loop body.old) (reading.becomes body.old).stmt body.new (reading.after body.old) }
{
    match raw {
        RawStmt::If(test, then, otherwise) => {
            let test = expr(alloc, file, body, test)?;
            let then = boxed(alloc, file, body, in_loop, then.get())?;
            let otherwise = part(alloc, file, body, in_loop, otherwise)?;
            Ok(Stmt::If(test, then, otherwise))
        }
        RawStmt::While(test, inner) => {
            let test = expr(alloc, file, body, test)?;
            let inner = boxed(alloc, file, body, true, inner.get())?;
            Ok(Stmt::While(test, inner))
        }
        RawStmt::DoWhile(inner, test) => {
            let inner = boxed(alloc, file, body, true, inner.get())?;
            let test = expr(alloc, file, body, test)?;
            Ok(Stmt::DoWhile(inner, test))
        }
        RawStmt::For(first, test, last, inner) => {
            body.open()?;
            let first = sequence(alloc, file, body, in_loop, first.as_slice())?;
            let test = optional_expr(alloc, file, body, test)?;
            let last = part(alloc, file, body, in_loop, last)?;
            let inner = boxed(alloc, file, body, true, inner.get())?;
            body.close();
            Ok(Stmt::For(first, test, last, inner))
        }
        RawStmt::Block(all) => {
            body.open()?;
            let all = sequence(alloc, file, body, in_loop, all.as_slice())?;
            body.close();
            Ok(Stmt::Block(all))
        }
        _ => simple(alloc, file, body, in_loop, raw, place),
    }
}

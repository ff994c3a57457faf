//! Turns by noted reads.
ghost use Rattle.std.specs.Prelude.{◌≡◌, ◌≢◌, ◌⊎◌, ◌↔◌, Contains, IfOk, IsTrue, OnErr, OnOk, Some, slice_get};
ghost use Rattle.std.specs.Map.{keys_of};
ghost use Rattle.gob_tree.specs.Formed.{IsFormed};
ghost use Rattle.constraint_sys.specs.Arising.{IsInner};
ghost use Rattle.constraint_sys.specs.Contribution.{read_by};
ghost use Rattle.constraint_sys.specs.Index.{IsSystemOf};
ghost use Rattle.constraint_sys.specs.Reading.{HasCommon};
ghost use Rattle.constraint_sys.specs.Sound.{CanTurn, IsShaped, IsTurnable};
ghost use Rattle.constraint_sys.specs.Turn.{ReadsRisen, Turns, raises_of, table_after};
ghost use Rattle.constraint_sys.specs.declared.unknown.Unknown.{Unknown as TheUnknown};
ghost use Rattle.dep_index.specs.Noted.{noted, reads_of};
ghost use Rattle.td_solver.specs.Noting.{IsNoted};

use crate::order::Order;
use constraint_sys::{Dirty, System, Table, TurnPlan, Unknown, plan_turn, risen, turn_by};
use dep_index::DepIndex;
use gob_tree::{Memory, Program};
use std::alloc::Global;

/// The reads of each point of the table that isn't dirty; `Memory` is want of memory.
pub(crate) fn note_clean(
    alloc: Global,
    program: &Program,
    system: &System,
    table: &Table,
    dirty: &Dirty,
) -> Result<DepIndex, Memory>
    requires formed { IsFormed program.now }
    requires system { IsSystemOf program.now system.now }
    requires shaped { IsShaped program.now table.now }
    ensures { IfOk result (λ index. IsNoted program.now (record { table = table.now; dirty = dirty.now }) index) }
{
    let mut index = DepIndex::new(alloc);
    for i in 0..table.len() {
        note_at(alloc, program, system, table, dirty, &mut index, i)?;
    }
    Ok(index)
}

/// Notes what the unknown at a place of the table reads, where it is a point of a node other than 0 and
/// isn't dirty.
fn note_at(
    alloc: Global,
    program: &Program,
    system: &System,
    table: &Table,
    dirty: &Dirty,
    index: &mut DepIndex,
    i: usize,
) -> Result<(), Memory>
    requires formed { IsFormed program.now }
    requires system { IsSystemOf program.now system.now }
    requires shaped { IsShaped program.now table.now }
    ensures points { (q r : TheUnknown) → OnOk result (Contains (reads_of index.new q) r → Contains (reads_of index.old q) r ⊎ CanTurn table.now q) }
    ensures here { (q : TheUnknown) → OnOk result (slice_get (keys_of table.now) i ≡ Some q → CanTurn table.now q → (Contains dirty.now q → ⊥) → reads_of index.new q ≡ read_by program.now table.now q) }
    ensures kept { (q : TheUnknown) → OnOk result (reads_of index.old q ≡ read_by program.now table.now q → reads_of index.new q ≡ read_by program.now table.now q) }
{
    let Some(u) = table.unknown(i) else {
        return Ok(());
    };
    if is_clean(&u, dirty) {
        note_point(alloc, program, system, table, index, &u)?;
    }
    Ok(())
}

/// Notes what a point reads.
fn note_point(
    alloc: Global,
    program: &Program,
    system: &System,
    table: &Table,
    index: &mut DepIndex,
    u: &Unknown,
) -> Result<(), Memory>
    requires formed { IsFormed program.now }
    requires system { IsSystemOf program.now system.now }
    requires shaped { IsShaped program.now table.now }
    requires there { CanTurn table.now u.now }
    ensures ok { (q : TheUnknown) → OnOk result (reads_of index.new q ≡ noted index.old u.now (read_by program.now table.now u.now) q) }
{
    let plan = plan_turn(alloc, program, system, table, u)?;
    index.note(alloc, *u, plan.reads.as_slice())
}

/// Whether it is a point of a node other than 0 that isn't dirty.
fn is_clean(u: &Unknown, dirty: &Dirty) -> bool
    ensures { IsTrue result ↔ (IsInner u.now × (Contains dirty.now u.now → ⊥)) }
{
    if is_inner(u) {
        !dirty.contains(u)
    } else {
        false
    }
}

fn is_inner(u: &Unknown) -> bool
    ensures { IsTrue result ↔ IsInner u.now }
{
    match u {
        Unknown::Point { node, .. } => *node > 0,
        Unknown::Global(_) => false,
    }
}

/// One turn of a dirty point, whose readers are found by their noted reads; the point's own reads are
/// noted anew. `Memory` is want of memory, and leaves the table and the dirty points as they were.
pub(crate) fn turn_noted(
    alloc: Global,
    program: &Program,
    system: &System,
    table: &mut Table,
    dirty: &mut Dirty,
    index: &mut DepIndex,
    order: &mut Order,
    u: &Unknown,
) -> Result<(), Memory>
    requires formed { IsFormed program.now }
    requires system { IsSystemOf program.now system.now }
    requires turnable { IsTurnable program.now (record { table = table.old; dirty = dirty.old }) }
    requires noted { IsNoted program.now (record { table = table.old; dirty = dirty.old }) index.old }
    requires is_dirty { Contains dirty.old u.now }
    ensures turned { OnOk result (Turns program.now (record { table = table.old; dirty = dirty.old }) u.now (record { table = table.new; dirty = dirty.new })) }
    ensures noted { IsNoted program.now (record { table = table.new; dirty = dirty.new }) index.new }
    ensures same_table { OnErr result (table.new ≡ table.old) }
    ensures same_dirty { OnErr result (dirty.new ≡ dirty.old) }
{
    let plan = note_turned(alloc, program, system, table, dirty, index, u)?;
    let awake = readers_of_risen(alloc, program, table, dirty, index, u, &plan)?;
    order.push_each(awake.as_slice());
    let len = table.len();
    turn_by(alloc, program, system, table, dirty, u, &plan, awake)?;
    order.push_dirty(table, dirty, len);
    Ok(())
}

/// The plan of a dirty point's turn, whose reads are noted.
fn note_turned(
    alloc: Global,
    program: &Program,
    system: &System,
    table: &Table,
    dirty: &Dirty,
    index: &mut DepIndex,
    u: &Unknown,
) -> Result<TurnPlan, Memory>
    requires formed { IsFormed program.now }
    requires system { IsSystemOf program.now system.now }
    requires turnable { IsTurnable program.now (record { table = table.now; dirty = dirty.now }) }
    requires noted { IsNoted program.now (record { table = table.now; dirty = dirty.now }) index.old }
    requires is_dirty { Contains dirty.now u.now }
    ensures plan { IfOk result (λ plan. plan.raises ≡ raises_of program.now table.now u.now) }
    ensures own { OnOk result (reads_of index.new u.now ≡ read_by program.now table.now u.now) }
    ensures noted { IsNoted program.now (record { table = table.now; dirty = dirty.now }) index.new }
{
    let plan = plan_turn(alloc, program, system, table, u)?;
    index.note(alloc, *u, plan.reads.as_slice())?;
    Ok(plan)
}

/// The noted readers of what rises by the turn, but for those that are dirty already; the turned point
/// is among them where it reads what rises.
fn readers_of_risen(
    alloc: Global,
    program: &Program,
    table: &Table,
    dirty: &Dirty,
    index: &DepIndex,
    u: &Unknown,
    plan: &TurnPlan,
) -> Result<Vec<Unknown>, Memory>
    requires formed { IsFormed program.now }
    requires turnable { IsTurnable program.now (record { table = table.now; dirty = dirty.now }) }
    requires noted { IsNoted program.now (record { table = table.now; dirty = dirty.now }) index.now }
    requires own { reads_of index.now u.now ≡ read_by program.now table.now u.now }
    requires is_dirty { Contains dirty.now u.now }
    requires plan { plan.now.raises ≡ raises_of program.now table.now u.now }
    ensures readers { (q : TheUnknown) → IfOk result (λ us. Contains us.items q → ReadsRisen program.now table.now (table_after program.now table.now u.now) q) }
    ensures all_readers { (q : TheUnknown) → IfOk result (λ us. ReadsRisen program.now table.now (table_after program.now table.now u.now) q → Contains us.items q ⊎ ((Contains dirty.now q) × (q ≢ u.now))) }
{
    let rose = risen(alloc, program, table, u, plan)?;
    awakened(alloc, index, dirty, u, rose.as_slice())
}

/// The noted readers of these unknowns, but for dirty ones other than the turned point.
fn awakened(
    alloc: Global,
    index: &DepIndex,
    dirty: &Dirty,
    u: &Unknown,
    rose: &[Unknown],
) -> Result<Vec<Unknown>, Memory>
    ensures { (q : TheUnknown) → IfOk result (λ us. Contains us.items q ↔ (HasCommon rose.now (reads_of index.now q) × ((q ≡ u.now) ⊎ (Contains dirty.now q → ⊥)))) }
{
    let mut awake = Vec::new(alloc);
    for r in rose {
        push_awake(&mut awake, index.readers(r), dirty, u)?;
    }
    Ok(awake)
}

fn push_awake(
    awake: &mut Vec<Unknown>,
    readers: &[Unknown],
    dirty: &Dirty,
    u: &Unknown,
) -> Result<(), Memory>
    ensures { (q : TheUnknown) → OnOk result (Contains awake.new.items q ↔ (Contains awake.old.items q ⊎ (Contains readers.now q × ((q ≡ u.now) ⊎ (Contains dirty.now q → ⊥))))) }
{
    for q in readers {
        if is_awake(q, dirty, u) {
            awake.push(*q)?;
        }
    }
    Ok(())
}

fn is_awake(q: &Unknown, dirty: &Dirty, u: &Unknown) -> bool
    ensures { IsTrue result ↔ ((q.now ≡ u.now) ⊎ (Contains dirty.now q.now → ⊥)) }
{
    if q == u { true } else { !dirty.contains(q) }
}

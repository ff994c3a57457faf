//! One turn: a dirty point is raised by its contribution.
ghost use Rattle.std.specs.Prelude.{◌≡◌, ◌≢◌, ◌⊎◌, ◌↔◌, All, Contains, IfOk, OnOk, OnErr, IsTrue, Some, length, take};
ghost use Rattle.std.specs.List.{IsDistinct};
ghost use Rattle.std.specs.Map.{keys_of};
ghost use Rattle.gob_tree.specs.Formed.{IsFormed};
ghost use Rattle.gob_tree.specs.declared.graph.Program.{Program as TheProgram};
ghost use Rattle.state_dom.specs.ThresholdValues.{AreThresholdsOf};
ghost use Rattle.constraint_sys.specs.Arising.{CanRaise, IsInner, IsLike, IsNewAt, arisen_in_each};
ghost use Rattle.constraint_sys.specs.Index.{IsSystemOf};
ghost use Rattle.constraint_sys.specs.Sound.{IsShaped, CanTurn};
ghost use Rattle.constraint_sys.specs.Table.{unknown_eq};
ghost use Rattle.constraint_sys.specs.Turn.{IsAscending, IsBrought, ReadsRisen, Turns, raised_in_each, raises_of, table_after};
ghost use Rattle.constraint_sys.specs.declared.unknown.Unknown.{Unknown as TheUnknown};

use crate::arise::arise_each;
use crate::dirty::Dirty;
use crate::plan::{TurnPlan, plan_turn, risen};
use crate::readers::readers;
use crate::system::System;
use crate::table::Table;
use crate::unknown::Unknown;
use crate::value::Effect;
use gob_tree::{Memory, Program};
use state_dom::Thresholds;
use std::alloc::Global;

/// One turn of a dirty point: its value is raised by its contribution, then the target of each
/// effect is. Dirty are then the nodes that a new start brought and the points that read an unknown
/// that rose. It takes its memory first; `Memory` is want of memory, and leaves the table and the
/// dirty points as they were.
pub fn turn(
    alloc: Global,
    program: &Program,
    system: &System,
    table: &mut Table,
    dirty: &mut Dirty,
    u: Unknown,
) -> Result<(), Memory>
    requires formed { IsFormed program.now }
    requires system { IsSystemOf program.now system.now }
    requires shaped { IsShaped program.now table.old }
    requires dirty_points { (q : TheUnknown) → Contains dirty.old q → CanTurn table.old q }
    requires is_dirty { Contains dirty.old u }
    ensures turned { OnOk result (Turns program.now (record { table = table.old; dirty = dirty.old }) u (record { table = table.new; dirty = dirty.new })) }
    ensures same_table { OnErr result (table.new ≡ table.old) }
    ensures same_dirty { OnErr result (dirty.new ≡ dirty.old) }
{
    let plan = plan_turn(alloc, program, system, table, &u)?;
    let awake = awakened(alloc, program, system, table, &u, &plan)?;
    turn_by(alloc, program, system, table, dirty, &u, &plan, awake)
}

/// The same turn by a caller who knows the readers: `plan` is the turn's, and `awake` are points that
/// read an unknown that rises by it, among them each one that isn't dirty already. It takes no look
/// over the table. `Memory` is want of memory, and leaves the table and the dirty points as they were.
pub fn turn_by(
    alloc: Global,
    program: &Program,
    system: &System,
    table: &mut Table,
    dirty: &mut Dirty,
    u: &Unknown,
    plan: &TurnPlan,
    awake: Vec<Unknown>,
) -> Result<(), Memory>
    requires formed { IsFormed program.now }
    requires system { IsSystemOf program.now system.now }
    requires shaped { IsShaped program.now table.old }
    requires there { CanTurn table.old u.now }
    requires is_dirty { Contains dirty.old u.now }
    requires plan { plan.now.raises ≡ raises_of program.now table.old u.now }
    requires readers { (q : TheUnknown) → Contains awake.items q → ReadsRisen program.now table.old (table_after program.now table.old u.now) q }
    requires all_readers { (q : TheUnknown) → ReadsRisen program.now table.old (table_after program.now table.old u.now) q → Contains awake.items q ⊎ ((Contains dirty.old q) × (q ≢ u.now)) }
    ensures turned { OnOk result (Turns program.now (record { table = table.old; dirty = dirty.old }) u.now (record { table = table.new; dirty = dirty.new })) }
    ensures same_table { OnErr result (table.new ≡ table.old) }
    ensures same_dirty { OnErr result (dirty.new ≡ dirty.old) }
{
    let list = plan.raises.as_slice();
    begin(alloc, program, table, dirty, u, list, awake)?;
    raise_each(table, list, system.thresholds());
    Ok(())
}

/// The points that read what the plan makes rise.
fn awakened(
    alloc: Global,
    program: &Program,
    system: &System,
    table: &Table,
    u: &Unknown,
    plan: &TurnPlan,
) -> Result<Vec<Unknown>, Memory>
    requires formed { IsFormed program.now }
    requires system { IsSystemOf program.now system.now }
    requires shaped { IsShaped program.now table.now }
    requires there { CanTurn table.now u.now }
    requires plan { plan.now.raises ≡ raises_of program.now table.now u.now }
    ensures { (q : TheUnknown) → IfOk result (λ us. Contains us.items q ↔ ReadsRisen program.now table.now (table_after program.now table.now u.now) q) }
{
    let rose = risen(alloc, program, table, u, plan)?;
    readers(alloc, program, system, table, rose.as_slice())
}

/// Brings what arises into the table, and takes the point's turn off the dirty ones. `Memory` leaves
/// both as they were.
fn begin(
    alloc: Global,
    program: &Program,
    table: &mut Table,
    dirty: &mut Dirty,
    u: &Unknown,
    raises: &[Effect],
    awake: Vec<Unknown>,
) -> Result<(), Memory>
    requires formed { IsFormed program.now }
    requires fit { All (CanRaise program.now table.old) raises.now }
    ensures table { OnOk result (table.new ≡ arisen_in_each program.now table.old raises.now) }
    ensures dirty { (q : TheUnknown) → OnOk result (Contains dirty.new q ↔ (((Contains dirty.old q) × (q ≢ u.now)) ⊎ (IsBrought table.old table.new q ⊎ Contains awake.items q))) }
    ensures same_table { OnErr result (table.new ≡ table.old) }
    ensures same_dirty { OnErr result (dirty.new ≡ dirty.old) }
    ensures ascending { OnOk result (IsAscending dirty.new) }
{
    let len = table.len();
    match prepare(alloc, program, table, dirty, u, raises, awake) {
        Ok(()) => Ok(()),
        Err(error) => {
            table.truncate(len);
            Err(error)
        }
    }
}

/// The same, but `Memory` may leave entries beyond the old ones.
fn prepare(
    alloc: Global,
    program: &Program,
    table: &mut Table,
    dirty: &mut Dirty,
    u: &Unknown,
    raises: &[Effect],
    awake: Vec<Unknown>,
) -> Result<(), Memory>
    requires formed { IsFormed program.now }
    requires fit { All (CanRaise program.now table.old) raises.now }
    ensures table { OnOk result (table.new ≡ arisen_in_each program.now table.old raises.now) }
    ensures dirty { (q : TheUnknown) → OnOk result (Contains dirty.new q ↔ (((Contains dirty.old q) × (q ≢ u.now)) ⊎ (IsBrought table.old table.new q ⊎ Contains awake.items q))) }
    ensures begins { take (length table.old) table.new ≡ table.old }
    ensures same_dirty { OnErr result (dirty.new ≡ dirty.old) }
    ensures ascending { OnOk result (IsAscending dirty.new) }
{
    let len = table.len();
    arise_each(alloc, program, table, raises)?;
    let mut more = awake;
    push_brought(&mut more, table, len)?;
    dirty.exchange(alloc, u, more.as_slice())
}

/// Adds the points of nodes other than 0 among the entries from one on.
fn push_brought(more: &mut Vec<Unknown>, table: &Table, from: usize) -> Result<(), Memory>
    ensures more { (q : TheUnknown) → OnOk result (Contains more.new.items q ↔ (Contains more.old.items q ⊎ (IsInner q × IsNewAt from table.now q))) }
    ensures distinct { IsDistinct unknown_eq (keys_of table.now) }
{
    for i in from..table.len() {
        push_inner(more, table.unknown(i))?;
    }
    Ok(())
}

fn push_inner(more: &mut Vec<Unknown>, u: Option<Unknown>) -> Result<(), Memory>
    ensures { (q : TheUnknown) → OnOk result (Contains more.new.items q ↔ (Contains more.old.items q ⊎ (IsInner q × (u ≡ Some q)))) }
{
    let Some(u) = u else {
        return Ok(());
    };
    if is_inner(&u) {
        more.push(u)?;
    }
    Ok(())
}

fn is_inner(u: &Unknown) -> bool
    ensures { IsTrue result ↔ IsInner u.now }
{
    match u {
        Unknown::Point { node, .. } => *node > 0,
        Unknown::Global(_) => false,
    }
}

/// Raises each target, which is there; takes no memory.
fn raise_each(table: &mut Table, raises: &[Effect], marks: &Thresholds)
    requires alike { All (IsLike table.old) raises.now }
    ensures { (p : TheProgram) → AreThresholdsOf p marks.now → table.new ≡ raised_in_each p table.old raises.now }
{
    for e in raises {
        table.raise(&e.target, &e.value, marks);
    }
}

//! What a turn is going to do, before it changes anything.
ghost use Rattle.std.specs.Prelude.{◌≡◌, ◌↔◌, Contains, IfOk};
ghost use Rattle.gob_tree.specs.Formed.{IsFormed};
ghost use Rattle.constraint_sys.specs.Contribution.{read_by};
ghost use Rattle.constraint_sys.specs.Index.{IsSystemOf};
ghost use Rattle.constraint_sys.specs.Sound.{IsShaped, CanTurn};
ghost use Rattle.constraint_sys.specs.Turn.{Rose, raises_of, table_after};
ghost use Rattle.constraint_sys.specs.declared.unknown.Unknown.{Unknown as TheUnknown};

use crate::edges::contribution_to;
use crate::system::System;
use crate::table::Table;
use crate::unknown::Unknown;
use crate::value::{Effect, Value};
use gob_tree::{Memory, Program, Seq};
use std::alloc::Global;

/// What a turn of a point raises, in order: the point by its contribution's value, then each effect's
/// target; and what the point reads.
#[derive(Drop)]
pub struct TurnPlan {
    pub raises: Seq<Effect>,
    pub reads: Seq<Unknown>,
}

/// The plan of a turn of a point of the table; `Memory` is want of memory.
pub fn plan_turn(
    alloc: Global,
    program: &Program,
    system: &System,
    table: &Table,
    u: &Unknown,
) -> Result<TurnPlan, Memory>
    requires formed { IsFormed program.now }
    requires system { IsSystemOf program.now system.now }
    requires shaped { IsShaped program.now table.now }
    requires there { CanTurn table.now u.now }
    ensures raises { IfOk result (λ plan. plan.raises ≡ raises_of program.now table.now u.now) }
    ensures reads { IfOk result (λ plan. plan.reads ≡ read_by program.now table.now u.now) }
{
    let given = contribution_to(alloc, program, system, table, u)?;
    let mut raises = Seq::new(alloc);
    raises.push(Effect {
        target: *u,
        value: Value::State(given.value),
    })?;
    for e in given.effects.into_vec() {
        raises.push(e)?;
    }
    Ok(TurnPlan {
        raises,
        reads: given.reads,
    })
}

/// The unknowns that rise by a turn of a point, whose plan this is: the targets that don't bound what
/// raises them. `Memory` is want of memory.
pub fn risen(
    alloc: Global,
    program: &Program,
    table: &Table,
    u: &Unknown,
    plan: &TurnPlan,
) -> Result<Vec<Unknown>, Memory>
    requires formed { IsFormed program.now }
    requires shaped { IsShaped program.now table.now }
    requires there { CanTurn table.now u.now }
    requires plan { plan.now.raises ≡ raises_of program.now table.now u.now }
    ensures { (r : TheUnknown) → IfOk result (λ us. Contains us.items r ↔ Rose table.now (table_after program.now table.now u.now) r) }
{
    let mut rose = Vec::new(alloc);
    for e in plan.raises.as_slice() {
        if !table.bounds(program, &e.target, &e.value) {
            rose.push(e.target)?;
        }
    }
    Ok(rose)
}

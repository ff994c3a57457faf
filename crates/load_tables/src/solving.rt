//! The solving of one text, and the check of its table.
ghost use Rattle.std.specs.Prelude.{◌≡◌, ◌≢◌, IfErr, IfOk};
ghost use Rattle.std.specs.Arc.{arc_value};
ghost use Rattle.gob_tree.specs.Formed.{IsFormed};
ghost use Rattle.c_check.specs.Front.{IsSourceOf};
ghost use Rattle.c_check.specs.declared.fault.FrontFault.{FrontFault as TheFault};
ghost use Rattle.constraint_sys.specs.Sound.{IsSound};
ghost use Rattle.td_solver.specs.Ending.{start_of_job};
ghost use Rattle.load_tables.specs.Ends.{IsInitial, IsLeftBy, IsSolution, IsSolvedText, SolvesFrom, StopsText};
ghost use Rattle.load_tables.specs.Tables.{Spends};

use crate::loaded::LoadStop;
use c_check::{FrontKind, front};
use c_source::Source;
use carry_law::carried_is_sound;
use constraint_sys::{Dirty, System, Table, initial, initial_is_sound};
use global_restart::carry;
use gob_tree::Memory;
use post_check::post_check;
use std::alloc::Global;
use std::sync::Arc;
use td_solver::{Job, Outcome, Solved, solve};

/// The most turns for one text.
pub const TURNS: u64 = 100_000;

/// Solves a text from its initial table.
pub(crate) fn solve_generated(alloc: Global, text: &[u8]) -> Result<Solved, LoadStop>
    ensures solved { IfOk result (λ solved. IsSolvedText IsInitial text.now (arc_value solved.source) solved.table) }
    ensures stopped { IfErr result (StopsText IsInitial text.now) }
{
    initial_is_sound();
    let source = source_of(alloc, text)?;
    let (table, dirty) = initial(alloc, source.program())?;
    solve_from(alloc, source, table, dirty)
}

/// Solves a text from what the solved table of the text before it leaves.
pub(crate) fn solve_edited(alloc: Global, before: &Solved, text: &[u8]) -> Result<Solved, LoadStop>
    requires { IsSolution (arc_value before.now.source) before.now.table }
    ensures solved { IfOk result (λ solved. IsSolvedText (IsLeftBy (arc_value before.now.source) before.now.table) text.now (arc_value solved.source) solved.table) }
    ensures stopped { IfErr result (StopsText (IsLeftBy (arc_value before.now.source) before.now.table) text.now) }
{
    carried_is_sound();
    let source = source_of(alloc, text)?;
    let old = before.source.program();
    let (table, dirty) = carry(alloc, old, source.program(), &before.table)?;
    solve_from(alloc, source, table, dirty)
}

/// The source of a text.
fn source_of(alloc: Global, text: &[u8]) -> Result<Source, LoadStop>
    ensures source { IfOk result (IsSourceOf text.now) }
    ensures formed { IfOk result (λ source. IsFormed source.program) }
    ensures not_spent { result ≢ Err LoadStop.Spent }
    ensures stopped { IfErr result (StopsText IsInitial text.now) }
{
    match front(alloc, text) {
        Ok(source) => Ok(source),
        Err(fault) => {
            if fault.kind == FrontKind::Memory {
                Err(LoadStop::Memory)
            } else {
                Err(LoadStop::Refused(fault))
            }
        }
    }
}

/// Solves a source from this table, where these points are dirty.
fn solve_from(alloc: Global, source: Source, table: Table, dirty: Dirty) -> Result<Solved, LoadStop>
    requires formed { IsFormed source.program }
    requires sound { IsSound source.program (record { table = table; dirty = dirty }) }
    ensures solved { IfOk result (SolvesFrom source (record { table = table; dirty = dirty })) }
    ensures spent { result ≡ Err LoadStop.Spent → Spends source.program (record { table = table; dirty = dirty }) }
    ensures not_refused { (fault : TheFault) → result ≢ Err (LoadStop.Refused fault) }
{
    let job = job_of(alloc, source, table, dirty)?;
    match solve(alloc, job, TURNS) {
        Outcome::Clean(solved) => Ok(solved),
        Outcome::Spent(_run) => Err(LoadStop::Spent),
        Outcome::Memory => Err(LoadStop::Memory),
    }
}

/// The job to solve a source from this table. `Memory` is want of memory.
fn job_of(alloc: Global, source: Source, table: Table, dirty: Dirty) -> Result<Job, Memory>
    ensures source { IfOk result (λ job. arc_value job.source ≡ source) }
    ensures start { IfOk result (λ job. start_of_job job ≡ record { table = table; dirty = dirty }) }
{
    let source = Arc::new(alloc, source)?;
    Ok(Job {
        number: 1,
        source,
        table,
        dirty,
    })
}

/// In how many places the check names a breach of a solved table: in one, or in none. `Memory` is want
/// of memory.
pub(crate) fn breaches_of(alloc: Global, solved: &Solved) -> Result<u32, Memory>
    requires { IsSolution (arc_value solved.now.source) solved.now.table }
    ensures { IfOk result (λ breaches. breaches ≡ 0) }
{
    let program = solved.source.program();
    let system = System::of(alloc, program)?;
    match post_check(alloc, program, &system, &solved.table)? {
        Some(_breach) => Ok(1),
        None => Ok(0),
    }
}

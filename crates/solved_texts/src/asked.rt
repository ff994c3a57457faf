//! What a test asks of the constraint system, where it may ask it.
ghost use Rattle.gob_tree.specs.Formed.{IsFormed};
ghost use Rattle.constraint_sys.specs.Sound.{IsShaped, IsTurnable};
ghost use Rattle.td_solver.specs.Ending.{program_of_job, start_of_job};

use constraint_sys::{
    Contribution, Key, Outcome, System, Table, Unknown, contribution, function_at, outcome,
    plan_turn, risen, turn,
};
use gob_tree::{Memory, Program};
use std::alloc::Global;
use td_solver::Job;

/// What an edge of a function gives in a context; `None` where the function or the edge isn't there.
pub fn given(
    alloc: Global,
    program: &Program,
    table: &Table,
    func: u16,
    key: &Key,
    edge: usize,
) -> Result<Option<Outcome>, Memory>
    requires formed { IsFormed program.now }
    requires shaped { IsShaped program.now table.now }
{
    if func as usize >= program.funcs.len() {
        return Ok(None);
    }
    let edges = function_at(program, func).edges.as_slice();
    if edge >= edges.len() {
        return Ok(None);
    }
    let found = outcome(alloc, program, table, func, key, &edges[edge])?;
    Ok(Some(found))
}

/// What a dirty point of a job gets; `None` where it isn't dirty.
pub fn given_to(alloc: Global, job: &Job, u: &Unknown) -> Result<Option<Contribution>, Memory>
    requires formed { IsFormed (program_of_job job.now) }
    requires turnable { IsTurnable (program_of_job job.now) (start_of_job job.now) }
{
    if !job.dirty.contains(u) {
        return Ok(None);
    }
    let program = job.source.program();
    let system = System::of(alloc, program)?;
    let found = contribution(alloc, program, &system, &job.table, *u)?;
    Ok(Some(found))
}

/// What rises by the turn of a dirty point of a job; nothing where it isn't dirty.
pub fn risen_by(alloc: Global, job: &Job, u: &Unknown) -> Result<Vec<Unknown>, Memory>
    requires formed { IsFormed (program_of_job job.now) }
    requires turnable { IsTurnable (program_of_job job.now) (start_of_job job.now) }
{
    if !job.dirty.contains(u) {
        return Ok(Vec::new(alloc));
    }
    let program = job.source.program();
    let system = System::of(alloc, program)?;
    let plan = plan_turn(alloc, program, &system, &job.table, u)?;
    risen(alloc, program, &job.table, u, &plan)
}

/// The turn of a dirty point of a job, in its table; whether the point was dirty.
pub fn turned(alloc: Global, job: &mut Job, u: &Unknown) -> Result<bool, Memory>
    requires formed { IsFormed (program_of_job job.old) }
    requires turnable { IsTurnable (program_of_job job.old) (start_of_job job.old) }
{
    if !job.dirty.contains(u) {
        return Ok(false);
    }
    let program = job.source.program();
    let system = System::of(alloc, program)?;
    turn(alloc, program, &system, &mut job.table, &mut job.dirty, *u)?;
    Ok(true)
}

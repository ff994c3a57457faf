//! From a text to its solved table, and on to the next text.
ghost use Rattle.std.specs.Prelude.{◌≡◌, IfOk, IfSome};
ghost use Rattle.std.specs.Arc.{arc_value};
ghost use Rattle.gob_tree.specs.Formed.{IsFormed};
ghost use Rattle.carry_trial.specs.Solutions.{IsSolution, IsSoundJob};
ghost use Rattle.td_solver.specs.Ending.{start_of_job};

use c_check::front;
use c_source::Source;
use constraint_sys::{Dirty, Table, initial};
use global_restart::carry;
use gob_tree::Memory;
use std::alloc::Global;
use std::sync::Arc;
use td_solver::{Job, Outcome, Solved, solve};

/// The job of a text, from its program's initial table; `None` where the text is refused or memory is
/// wanting.
pub fn first_job(alloc: Global, text: &[u8]) -> Option<Job>
    ensures { IfSome result IsSoundJob }
{
    let Ok(source) = front(alloc, text) else {
        return None;
    };
    match begun(alloc, source) {
        Ok(job) => Some(job),
        Err(_) => None,
    }
}

/// The job of the next text, from what a solved table leaves for it; `None` where the text is refused
/// or memory is wanting.
pub fn next_job(alloc: Global, old: &Solved, text: &[u8]) -> Option<Job>
    requires { IsSolution old.now }
    ensures { IfSome result IsSoundJob }
{
    let Ok(source) = front(alloc, text) else {
        return None;
    };
    match carried(alloc, old, source) {
        Ok(job) => Some(job),
        Err(_) => None,
    }
}

/// A job solved within 100,000 turns; `None` where it isn't solved so far, or memory is wanting.
pub fn solved_from(alloc: Global, job: Job) -> Option<Solved>
    requires { IsSoundJob job }
    ensures { IfSome result IsSolution }
{
    match solve(alloc, job, 100_000) {
        Outcome::Clean(solved) => Some(solved),
        Outcome::Spent(_) => None,
        Outcome::Memory => None,
    }
}

fn begun(alloc: Global, source: Source) -> Result<Job, Memory>
    requires { IsFormed source.program }
    ensures { IfOk result IsSoundJob }
{
    let (table, dirty) = initial(alloc, source.program())?;
    let job = job_of(alloc, source, table, dirty)?;
    Ok(job)
}

fn carried(alloc: Global, old: &Solved, source: Source) -> Result<Job, Memory>
    requires old { IsSolution old.now }
    requires formed { IsFormed source.program }
    ensures { IfOk result IsSoundJob }
{
    let (table, dirty) = carry(alloc, old.source.program(), source.program(), &old.table)?;
    let job = job_of(alloc, source, table, dirty)?;
    Ok(job)
}

fn job_of(alloc: Global, source: Source, table: Table, dirty: Dirty) -> Result<Job, Memory>
    ensures source { IfOk result (λ job. arc_value job.source ≡ source) }
    ensures start { IfOk result (λ job. start_of_job job ≡ record { table = table; dirty = dirty }) }
{
    let source = Arc::new(alloc, source)?;
    Ok(Job {
        number: 1,
        source,
        table,
        dirty,
    })
}

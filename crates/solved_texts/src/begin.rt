ghost use Rattle.std.specs.Prelude.{IfOk};
ghost use Rattle.std.specs.Arc.{arc_value};
ghost use Rattle.gob_tree.specs.Formed.{IsFormed};
ghost use Rattle.constraint_sys.specs.Sound.{IsTurnable};
ghost use Rattle.td_solver.specs.Ending.{program_of_job, start_of_job};

use c_check::front;
use c_source::Source;
use constraint_sys::initial;
use gob_tree::Memory;
use std::alloc::Global;
use std::sync::Arc;
use td_solver::{Job, Progress, Run};

/// Why a text has no solved table here: it is refused, or something is still dirty after 1,000 turns,
/// or memory is wanting.
#[derive(Debug, Drop)]
pub enum Unsolved {
    Refused,
    Dirty,
    Memory,
}

/// The job of a text, from its program's initial table.
pub fn job_of(alloc: Global, text: &[u8]) -> Result<Job, Unsolved>
    ensures formed { IfOk result (λ job. IsFormed (program_of_job job)) }
    ensures turnable { IfOk result (λ job. IsTurnable (program_of_job job) (start_of_job job)) }
{
    let Ok(source) = front(alloc, text) else {
        return Err(Unsolved::Refused);
    };
    let Ok(source) = Arc::new(alloc, source) else {
        return Err(Unsolved::Memory);
    };
    match begun(alloc, source) {
        Ok(job) => Ok(job),
        Err(_) => Err(Unsolved::Memory),
    }
}

/// The job of a source, from its program's initial table.
fn begun(alloc: Global, source: Arc<Source>) -> Result<Job, Memory>
    requires formed { IsFormed (arc_value source).program }
    ensures formed { IfOk result (λ job. IsFormed (program_of_job job)) }
    ensures turnable { IfOk result (λ job. IsTurnable (program_of_job job) (start_of_job job)) }
{
    let (table, dirty) = initial(alloc, source.program())?;
    Ok(Job {
        number: 1,
        source,
        table,
        dirty,
    })
}

/// A run of the job of a text, before any turn.
pub fn run_of(alloc: Global, text: &[u8]) -> Result<Run, Unsolved> {
    match Run::new(alloc, job_of(alloc, text)?) {
        Ok(run) => Ok(run),
        Err(_) => Err(Unsolved::Memory),
    }
}

/// A run of the job of a text, with nothing dirty.
pub fn solved(alloc: Global, text: &[u8]) -> Result<Run, Unsolved> {
    let mut run = run_of(alloc, text)?;
    match run.advance(alloc, 1000) {
        Progress::Clean => Ok(run),
        Progress::Dirty => Err(Unsolved::Dirty),
        Progress::Memory => Err(Unsolved::Memory),
    }
}

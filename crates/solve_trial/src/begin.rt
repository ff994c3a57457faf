//! From a text to a run of it.
ghost use Rattle.std.specs.Prelude.{◌≡◌, [], IfOk, IfSome};
ghost use Rattle.std.specs.Arc.{arc_value};
ghost use Rattle.gob_tree.specs.Formed.{IsFormed};
ghost use Rattle.constraint_sys.specs.Sound.{IsTurnable};
ghost use Rattle.td_solver.specs.Ending.{program_of_job, start_of_job};

use c_check::front;
use c_source::Source;
use constraint_sys::initial;
use gob_tree::Memory;
use std::alloc::Global;
use std::sync::Arc;
use td_solver::{Job, Run};

/// A run of a text from its program's initial table, before any turn; `None` where the text is
/// refused, or memory is wanting.
pub fn run_of(alloc: Global, text: &[u8]) -> Option<Run>
    ensures { IfSome result (λ run. run.trace ≡ []) }
{
    let Ok(source) = front(alloc, text) else {
        return None;
    };
    let Ok(source) = Arc::new(alloc, source) else {
        return None;
    };
    match job_of(alloc, source) {
        Ok(job) => Run::new(alloc, job).ok(),
        Err(_) => None,
    }
}

/// The job of a source, from its program's initial table; `Memory` is want of memory.
fn job_of(alloc: Global, source: Arc<Source>) -> Result<Job, Memory>
    requires formed { IsFormed (arc_value source).program }
    ensures formed { IfOk result (λ job. IsFormed (program_of_job job)) }
    ensures turnable { IfOk result (λ job. IsTurnable (program_of_job job) (start_of_job job)) }
{
    let (table, dirty) = initial(alloc, source.program())?;
    Ok(Job {
        number: 1,
        source,
        table,
        dirty,
    })
}

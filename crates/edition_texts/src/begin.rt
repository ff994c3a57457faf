ghost use Rattle.std.specs.Prelude.{◌≡◌, IfOk};
ghost use Rattle.std.specs.Arc.{arc_value};
ghost use Rattle.gob_tree.specs.Formed.{IsFormed};
ghost use Rattle.constraint_sys.specs.PostSolution.{IsPostSolution};
ghost use Rattle.constraint_sys.specs.Sound.{IsShaped};
ghost use Rattle.constraint_sys.specs.Turn.{initial_of};
ghost use Rattle.td_solver.specs.Ending.{start_of_job};

use c_check::front;
use c_source::Source;
use constraint_sys::initial;
use edition_core::Edition;
use gob_tree::{Memory, Program};
use std::alloc::Global;
use std::sync::Arc;
use td_solver::{Job, Outcome, Solved, solve};

/// The edition of a text that is solved within 10,000 turns; `None` where it is refused, isn't solved
/// so far, or memory is wanting.
pub fn edition_of(alloc: Global, text: &[u8]) -> Option<Edition> {
    let Ok(source) = front(alloc, text) else {
        return None;
    };
    let Ok(job) = job_of(alloc, source) else {
        return None;
    };
    match solve(alloc, job, 10_000) {
        Outcome::Clean(solved) => made(alloc, solved).ok(),
        Outcome::Spent(_) => None,
        Outcome::Memory => None,
    }
}

/// The program of an edition.
pub(crate) fn program_of(edition: &Edition) -> &Program
    ensures value { result.now ≡ edition.now.source.program }
    ensures formed { IsFormed result.now }
{
    edition.source().program()
}

/// The job to solve a source's program from its initial table.
fn job_of(alloc: Global, source: Source) -> Result<Job, Memory>
    requires { IsFormed source.program }
    ensures source { IfOk result (λ job. arc_value job.source ≡ source) }
    ensures start { IfOk result (λ job. start_of_job job ≡ initial_of source.program) }
{
    let (table, dirty) = initial(alloc, source.program())?;
    let source = Arc::new(alloc, source)?;
    Ok(Job {
        number: 1,
        source,
        table,
        dirty,
    })
}

/// The edition of a solved table, with none as its base.
fn made(alloc: Global, solved: Solved) -> Result<Edition, Memory>
    requires formed { IsFormed (arc_value solved.source).program }
    requires shaped { IsShaped (arc_value solved.source).program solved.table }
    requires solved { IsPostSolution (arc_value solved.source).program solved.table }
{
    Edition::make(
        alloc,
        solved.number,
        0,
        solved.source,
        solved.table,
        solved.trace,
    )
}

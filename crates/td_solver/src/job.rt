ghost use Rattle.std.specs.Prelude.{◌≡◌, IfOk};
ghost use Rattle.std.specs.Arc.{arc_value};
ghost use Rattle.constraint_sys.specs.Turn.{initial_of};
ghost use Rattle.td_solver.specs.Ending.{start_of_job};

use crate::run::Run;
use c_source::Source;
use constraint_sys::{Dirty, Table, Unknown, initial};
use gob_tree::{Memory, Seq};
use std::alloc::Global;
use std::sync::Arc;

/// What is to be solved: the table and the dirty points of a source's program. `number` is that of the
/// edit that the source came with.
#[derive(Drop)]
pub struct Job {
    pub number: u32,
    pub source: Arc<Source>,
    pub table: Table,
    pub dirty: Dirty,
}

impl Job {
    /// The first job of a source: its program's initial table is to be solved. `Memory` is want of
    /// memory.
    pub fn of(alloc: Global, source: Source) -> Result<Job, Memory>
        ensures first { IfOk result (λ job. job.number ≡ 1) }
        ensures source { IfOk result (λ job. arc_value job.source ≡ source) }
        ensures start { IfOk result (λ job. start_of_job job ≡ initial_of source.program) }
    {
        source.is_analysable();
        let (table, dirty) = initial(alloc, source.program())?;
        Job::from_table(alloc, source, table, dirty)
    }

    /// The first job of a source that begins with this table, where these points are dirty. `Memory`
    /// is want of memory.
    pub fn from_table(
        alloc: Global,
        source: Source,
        table: Table,
        dirty: Dirty,
    ) -> Result<Job, Memory>
        ensures first { IfOk result (λ job. job.number ≡ 1) }
        ensures source { IfOk result (λ job. arc_value job.source ≡ source) }
        ensures start { IfOk result (λ job. start_of_job job ≡ record { table = table; dirty = dirty }) }
    {
        let source = Arc::new(alloc, source)?;
        Ok(Job {
            number: 1,
            source,
            table,
            dirty,
        })
    }
}

/// A solved table, in which nothing is dirty, with the turns that made it, in order.
#[derive(Drop)]
pub struct Solved {
    pub number: u32,
    pub source: Arc<Source>,
    pub table: Table,
    pub trace: Seq<Unknown>,
}

/// How far turns have come: nothing is dirty, something is, or memory was wanting.
#[derive(Clone, Copy, Debug, PartialEq, Eq)]
pub enum Progress {
    Clean,
    Dirty,
    Memory,
}

/// How a job ended: it is solved, its budget was spent while something was dirty, or memory was
/// wanting.
#[derive(Drop)]
pub enum Outcome {
    Clean(Solved),
    Spent(Run),
    Memory,
}

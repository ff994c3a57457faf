ghost use Rattle.std.specs.Prelude.{◌≡◌, ◌≢◌, [], IfOk, IfErr, IfSome, None, OnOk, OnErr, Contains};
ghost use Rattle.std.specs.Arc.{arc_value};
ghost use Rattle.gob_tree.specs.Formed.{IsFormed};
ghost use Rattle.constraint_sys.specs.Index.{IsSystemOf};
ghost use Rattle.constraint_sys.specs.Sound.{IsShaped, IsTurnable};
ghost use Rattle.td_solver.specs.Ending.{begun, program_of_job, start_of_job};
ghost use Rattle.td_solver.specs.Noting.{IsNoted};
ghost use Rattle.td_solver.specs.Running.{GoesOnBy, GoesOnExactly, GoesOnWithin, program_of};

use crate::job::{Job, Progress, Solved};
use crate::noted::{note_clean, turn_noted};
use crate::order::Order;
use c_source::Source;
use constraint_sys::{Dirty, System, Table, Unknown};
use dep_index::DepIndex;
use gob_tree::{Memory, Seq};
use std::alloc::Global;
use std::marker::Model;
use std::sync::Arc;

/// A job on its way: the table and the dirty points after the turns made so far, with the record of
/// these turns.
#[derive(Drop)]
pub struct Run {
    number: u32,
    source: Arc<Source>,
    system: System,
    table: Table,
    dirty: Dirty,
    index: DepIndex,
    order: Order,
    trace: Vec<Unknown>,
}

impl Model for Run {
    ghost use Rattle.std.specs.Arc.{arc_value};
    ghost use Rattle.std.specs.Coded.{codes};
    ghost use Rattle.gob_tree.specs.contracts.expr.Expr as expr;
    ghost use Rattle.gob_tree.specs.contracts.stmt.Placed as placed;
    ghost use Rattle.gob_tree.specs.contracts.stmt.Stmt as stmt;
    ghost use Rattle.td_solver.specs.Running.{Running};

    ghost Value = { Running };

    ghost coded = { Prim.hlevel (codes, expr.the_row.coded, stmt.the_row.coded, placed.the_row.coded) };

    ghost use Rattle.gob_tree.specs.Formed.{IsFormed};
    ghost use Rattle.constraint_sys.specs.Index.{IsSystemOf};
    ghost use Rattle.constraint_sys.specs.Sound.{IsTurnable};
    ghost use Rattle.td_solver.specs.Noting.{IsNoted};

    ghost view = { λ r. record { number = r.number; source = arc_value r.source; solving = record { table = r.table; dirty = r.dirty }; trace = r.trace.items } };

    ghost invariant = { λ r. IsFormed (arc_value r.source).program × IsSystemOf (arc_value r.source).program r.system
        × IsTurnable (arc_value r.source).program (record { table = r.table; dirty = r.dirty })
        × IsNoted (arc_value r.source).program (record { table = r.table; dirty = r.dirty }) r.index };
}

impl Run {
    /// A run of a job, before any turn. `Err` is want of memory, and gives the job back.
    pub fn new(alloc: Global, job: Job) -> Result<Run, Job>
        requires formed { IsFormed (program_of_job job) }
        requires turnable { IsTurnable (program_of_job job) (start_of_job job) }
        ensures ok { IfOk result (λ run. run ≡ begun job) }
        ensures err { IfErr result (λ back. back ≡ job) }
    {
        match prepared(alloc, &job) {
            Ok(ready) => Ok(Run {
                number: job.number,
                source: job.source,
                system: ready.system,
                table: job.table,
                dirty: job.dirty,
                index: ready.index,
                order: ready.order,
                trace: Vec::new(alloc),
            }),
            Err(_) => Err(job),
        }
    }

    /// The source.
    pub fn source(&self) -> &Source
        ensures value { result.now ≡ self.now.source }
        ensures formed { IsFormed (program_of self.now) }
    {
        &self.source
    }

    /// The table as it is now.
    pub fn table(&self) -> &Table
        ensures value { result.now ≡ self.now.solving.table }
        ensures shaped { IsShaped (program_of self.now) result.now }
    {
        &self.table
    }

    /// The points whose turn is still to come.
    pub fn dirty(&self) -> &Dirty
        ensures { result.now ≡ self.now.solving.dirty }
    {
        &self.dirty
    }

    /// The turns made so far, in order.
    pub fn trace(&self) -> &[Unknown]
        ensures { result.now ≡ self.now.trace }
    {
        self.trace.as_slice()
    }

    /// Makes one turn, of a dirty point. `Memory` is want of memory, and leaves the run as it was.
    pub fn apply(&mut self, alloc: Global, u: Unknown) -> Result<(), Memory>
        requires dirty { Contains self.old.solving.dirty u }
        ensures ok { OnOk result (GoesOnBy self.old u self.new) }
        ensures err { OnErr result (self.new ≡ self.old) }
    {
        self.make_turn(alloc, &u)
    }

    /// The same of a point that is lent.
    fn make_turn(&mut self, alloc: Global, u: &Unknown) -> Result<(), Memory>
        requires dirty { Contains self.old.solving.dirty u.now }
        ensures ok { OnOk result (GoesOnBy self.old u.now self.new) }
        ensures err { OnErr result (self.new ≡ self.old) }
    {
        self.trace.reserve(1)?;
        turn_noted(
            alloc,
            self.source.program(),
            &self.system,
            &mut self.table,
            &mut self.dirty,
            &mut self.index,
            &mut self.order,
            u,
        )?;
        match self.trace.push(*u) {
            Ok(()) => Ok(()),
            Err(_) => unreachable!(),
        }
    }

    /// Makes up to `k` turns, until nothing is dirty: `Dirty` comes where `k` turns were made and
    /// something still is. After `Memory`, which is want of memory, the turns made so far stand, and
    /// the run can be advanced again.
    pub fn advance(&mut self, alloc: Global, k: u64) -> Progress
        ensures goes_on { GoesOnWithin k self.old self.new }
        ensures clean { result ≡ Progress.Clean → self.new.solving.dirty ≡ [] }
        ensures dirty { result ≡ Progress.Dirty → self.new.solving.dirty ≢ [] }
        ensures whole { result ≡ Progress.Dirty → GoesOnExactly k self.old self.new }
    {
        for _i in 0..k {
            let Some(u) = self.next() else {
                return Progress::Clean;
            };
            match self.make_turn(alloc, &u) {
                Ok(()) => {}
                Err(_) => {
                    self.order.push(&u);
                    return Progress::Memory;
                }
            }
        }
        self.standing()
    }

    /// The dirty point whose turn it is; `None` exactly where nothing is dirty.
    fn next(&mut self) -> Option<Unknown>
        ensures same { self.new ≡ self.old }
        ensures dirty { IfSome result (λ u. Contains self.old.solving.dirty u) }
        ensures none { result ≡ None → self.old.solving.dirty ≡ [] }
    {
        self.order.next(&self.dirty)
    }

    /// Whether something is dirty.
    fn standing(&self) -> Progress
        ensures clean { result ≡ Progress.Clean → self.now.solving.dirty ≡ [] }
        ensures dirty { result ≡ Progress.Dirty → self.now.solving.dirty ≢ [] }
    {
        if self.dirty.is_empty() {
            Progress::Clean
        } else {
            Progress::Dirty
        }
    }

    /// The solved table with its trace; `Err` exactly where something is dirty, and gives the run back.
    pub fn finish(self) -> Result<Solved, Run>
        ensures clean { OnOk result (self.solving.dirty ≡ []) }
        ensures number { IfOk result (λ solved. solved.number ≡ self.number) }
        ensures source { IfOk result (λ solved. arc_value solved.source ≡ self.source) }
        ensures table { IfOk result (λ solved. solved.table ≡ self.solving.table) }
        ensures shaped { IfOk result (λ solved. IsShaped (program_of self) solved.table) }
        ensures trace { IfOk result (λ solved. solved.trace ≡ self.trace) }
        ensures dirty { OnErr result (self.solving.dirty ≢ []) }
        ensures back { IfErr result (λ run. run ≡ self) }
    {
        if !self.dirty.is_empty() {
            return Err(self);
        }
        Ok(Solved {
            number: self.number,
            source: self.source,
            table: self.table,
            trace: Seq::from_vec(self.trace),
        })
    }

    /// Gives up the run and hands out its trace.
    pub fn into_trace(self) -> Seq<Unknown>
        ensures { result ≡ self.trace }
    {
        Seq::from_vec(self.trace)
    }
}

/// What a run of a job looks up: the program's system, the reads of the clean points, and the order of
/// the dirty ones.
#[derive(Drop)]
struct Ready {
    system: System,
    index: DepIndex,
    order: Order,
}

fn prepared(alloc: Global, job: &Job) -> Result<Ready, Memory>
    requires formed { IsFormed (program_of_job job.now) }
    requires turnable { IsTurnable (program_of_job job.now) (start_of_job job.now) }
    ensures system { IfOk result (λ ready. IsSystemOf (program_of_job job.now) ready.system) }
    ensures noted { IfOk result (λ ready. IsNoted (program_of_job job.now) (start_of_job job.now) ready.index) }
{
    let program = job.source.program();
    let system = System::of(alloc, program)?;
    let index = note_clean(alloc, program, &system, &job.table, &job.dirty)?;
    let mut order = Order::of(alloc, program, &system)?;
    order.push_dirty(&job.table, &job.dirty, 0);
    Ok(Ready {
        system,
        index,
        order,
    })
}

//! What is asked of a text that follows another one, answered plainly: each call is false too where one
//! of them is refused, isn't solved within 100,000 turns, or memory is wanting.
ghost use Rattle.std.specs.Prelude.{IfSome};
ghost use Rattle.gob_tree.specs.Formed.{IsFormed};
ghost use Rattle.carry_trial.specs.Solutions.{IsSoundJob};
ghost use Rattle.constraint_sys.specs.Sound.{IsShaped};

use crate::begin::{first_job, next_job, solved_from};
use constraint_sys::Table;
use edition_core::print_table;
use gob_tree::{Memory, Program};
use std::alloc::Global;
use td_solver::Job;

/// Whether the table that is carried over from one text to the next is printed so.
pub fn carries(alloc: Global, old: &[u8], new: &[u8], wanted: &[u8]) -> bool {
    match job_after(alloc, old, new) {
        Some(job) => is_printed(alloc, job.source.program(), &job.table, wanted),
        None => false,
    }
}

/// Whether the dirty points of what is carried over have these places among the unknowns of the table
/// in their order.
pub fn leaves_dirty(alloc: Global, old: &[u8], new: &[u8], wanted: &[usize]) -> bool {
    match job_after(alloc, old, new) {
        Some(job) => match places_of(alloc, &job) {
            Ok(places) => places.as_slice() == wanted,
            Err(_) => false,
        },
        None => false,
    }
}

/// Whether the table of the next text, solved from what is carried over, is printed so.
pub fn solves_to(alloc: Global, old: &[u8], new: &[u8], wanted: &[u8]) -> bool {
    let Some(job) = job_after(alloc, old, new) else {
        return false;
    };
    match solved_from(alloc, job) {
        Some(solved) => is_printed(alloc, solved.source.program(), &solved.table, wanted),
        None => false,
    }
}

/// The job of the next text, after the text before it is solved.
fn job_after(alloc: Global, old: &[u8], new: &[u8]) -> Option<Job>
    ensures { IfSome result IsSoundJob }
{
    let first = first_job(alloc, old)?;
    let solved = solved_from(alloc, first)?;
    next_job(alloc, &solved, new)
}

fn is_printed(alloc: Global, program: &Program, table: &Table, wanted: &[u8]) -> bool
    requires formed { IsFormed program.now }
    requires shaped { IsShaped program.now table.now }
{
    match print_table(alloc, program, table) {
        Ok(text) => text.as_slice() == wanted,
        Err(_) => false,
    }
}

fn places_of(alloc: Global, job: &Job) -> Result<Vec<usize>, Memory> {
    let order = job.table.sorted(alloc)?;
    let mut places = Vec::new(alloc);
    for (place, u) in order.iter().enumerate() {
        if job.dirty.contains(u) {
            places.push(place)?;
        }
    }
    Ok(places)
}

/// Whether the printed table ends so.
pub fn is_at_end(alloc: Global, program: &Program, table: &Table, wanted: &[u8]) -> bool
    requires formed { IsFormed program.now }
    requires shaped { IsShaped program.now table.now }
{
    match print_table(alloc, program, table) {
        Ok(text) => text.as_slice().ends_with(wanted),
        Err(_) => false,
    }
}

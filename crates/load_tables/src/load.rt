//! A generated text and its edits, solved one after another.
ghost use Rattle.std.specs.Prelude.{◌<◌, ◌≤◌, IfErr, IfOk};
ghost use Rattle.load_tables.specs.Loads.{IsLoaded, Stops};

use crate::loaded::{LoadStop, Loaded};
use crate::solving::{breaches_of, solve_edited, solve_generated};
use gen_load::{edits_of, program_of};
use std::alloc::Global;

/// Solves the generated text of a number with so many functions from its initial table, and each of its
/// eight edits from what the table before it leaves, by at most 100,000 turns each; and checks each
/// table. It stops at the first text that is refused or spends its budget.
pub fn load_tables(alloc: Global, number: u64, functions: u32) -> Result<Loaded, LoadStop>
    requires some { 0 < functions }
    requires few { functions ≤ 120 }
    ensures loaded { IfOk result (IsLoaded number functions) }
    ensures stopped { IfErr result (Stops number functions) }
{
    let text = program_of(alloc, number, functions)?;
    let edits = edits_of(alloc, number, functions)?;
    let mut last = solve_generated(alloc, text.as_slice())?;
    let mut breaches = breaches_of(alloc, &last)?;
    let mut tables = 1;
    for edit in edits.as_slice() {
        last = solve_edited(alloc, &last, edit.as_bytes())?;
        breaches += breaches_of(alloc, &last)?;
        tables += 1;
    }
    Ok(Loaded {
        tables,
        breaches,
        source: last.source,
        table: last.table,
    })
}

//! The command `load`: a generated text and its eight edits, solved one after another.
ghost use Rattle.std.specs.Prelude.{◌≡◌, IfOk};
ghost use Rattle.std.specs.Arc.{arc_value};
ghost use Rattle.gob_tree.specs.Formed.{IsFormed};
ghost use Rattle.gobpie_main.specs.Load.{AnswersLoad, IsFewFunctions, counts_line, load_lines};

use crate::fault::{Answer, Fault};
use edition_core::print_globals;
use gob_tree::Memory;
use load_tables::{LoadStop, Loaded, TURNS, load_tables};
use std::alloc::Global;

/// Solves the generated text of a number with so many functions and its eight edits, each from what
/// the table before it leaves. Its lines are the counts and the global lines of the last table.
pub fn load(alloc: Global, number: u64, functions: u32) -> Answer
    requires { IsFewFunctions functions }
    ensures { AnswersLoad number functions result }
{
    match load_tables(alloc, number, functions) {
        Ok(loaded) => {
            let lines = lines_of(alloc, functions, &loaded)?;
            Ok(lines)
        }
        Err(LoadStop::Spent) => Err(Fault::Spent(TURNS)),
        Err(LoadStop::Refused(fault)) => Err(Fault::Refused(fault)),
        Err(LoadStop::Memory) => Err(Fault::Memory),
    }
}

/// The counts, and the global lines of the last table. `Memory` is want of memory.
fn lines_of(alloc: Global, functions: u32, loaded: &Loaded) -> Result<Vec<u8>, Memory>
    requires tables { loaded.now.tables ≡ 9 }
    requires breaches { loaded.now.breaches ≡ 0 }
    requires formed { IsFormed (arc_value loaded.now.source).program }
    ensures { IfOk result (λ bytes. bytes.items
        ≡ load_lines functions (arc_value loaded.now.source).program loaded.now.table) }
{
    let mut bytes = counts_line(alloc, functions, loaded.tables, loaded.breaches)?;
    let globals = print_globals(alloc, loaded.source.program(), &loaded.table)?;
    bytes.extend_from_slice(globals.as_slice())?;
    Ok(bytes)
}

/// The line of the counts. `Memory` is want of memory.
fn counts_line(alloc: Global, functions: u32, tables: u32, breaches: u32) -> Result<Vec<u8>, Memory>
    ensures { IfOk result (λ line. line.items ≡ counts_line functions tables breaches) }
{
    let mut line = Vec::from_slice(alloc, b"functions ")?;
    let mut buffer = itoa::Buffer::new();
    line.extend_from_slice(buffer.format(functions).as_bytes())?;
    line.extend_from_slice(b" edits 8 published ")?;
    line.extend_from_slice(buffer.format(tables).as_bytes())?;
    line.extend_from_slice(b" breaches ")?;
    line.extend_from_slice(buffer.format(breaches).as_bytes())?;
    line.extend_from_slice(b"\n")?;
    Ok(line)
}

//! The command `analyse`: the printed table of a file's program.
ghost use Rattle.std.specs.Prelude.{◌≡◌, ◌++◌, ℕ, List, IfOk, IsUtf8, codes};
ghost use Rattle.std.specs.Arc.{arc_value};
ghost use Rattle.gob_tree.specs.Formed.{IsFormed};
ghost use Rattle.c_check.specs.Front.{IsSourceOf};
ghost use Rattle.constraint_sys.specs.Sound.{IsShaped};
ghost use Rattle.edition_core.specs.Printed.{printed};
ghost use Rattle.gobpie_main.specs.Analyse.{AnswersAnalyse, IsAnalysisOf};
ghost use Rattle.gobpie_main.specs.Loading.{AsksFor, IsLoadOf};

use crate::fault::{Answer, Fault};
use crate::loading::{load, source_in};
use c_lex::TEXT_LIMIT;
use c_source::Source;
use edition_core::print_table;
use gob_outside::Files;
use gob_tree::{Memory, Text};
use std::alloc::Global;
use td_solver::{Job, Outcome, Solved, solve};
use tree_law::trees_are_shown;

/// The table of the file's program, solved by at most `budget` turns.
pub fn analyse<F: Files>(alloc: Global, file: &Text, budget: u64, files: &mut F) -> Answer
    requires { IsUtf8 file.now }
    ensures answer { AnswersAnalyse file.now budget result (F.seen files.old) (F.seen files.new) }
    ensures asks { AsksFor file.now (F.seen files.old) (F.seen files.new) }
{
    let found = load(alloc, file, TEXT_LIMIT, files)?;
    table_in(alloc, found, budget)
}

/// The table of a text that was loaded.
fn table_in(alloc: Global, found: Option<Vec<u8>>, budget: u64) -> Answer
    ensures { (text : List ℕ) → IsLoadOf TEXT_LIMIT text found → IsAnalysisOf text budget result }
{
    let source = source_in(alloc, found)?;
    table_of(alloc, source, budget)
}

/// The table of a source's program, and `complete`.
fn table_of(alloc: Global, source: Source, budget: u64) -> Answer
    ensures { (text : List ℕ) → IsSourceOf text source → IsAnalysisOf text budget result }
{
    // the law by which a table shows the runs, and what it asks of a source
    trees_are_shown();
    source.is_analysable();
    let job = Job::of(alloc, source)?;
    match solve(alloc, job, budget) {
        Outcome::Clean(solved) => {
            let bytes = print_complete(alloc, &solved)?;
            Ok(bytes)
        }
        Outcome::Spent(_run) => Err(Fault::Spent(budget)),
        Outcome::Memory => Err(Fault::Memory),
    }
}

/// The printed table, and `complete`. `Memory` is want of memory.
fn print_complete(alloc: Global, solved: &Solved) -> Result<Vec<u8>, Memory>
    requires formed { IsFormed (arc_value solved.now.source).program }
    requires shaped { IsShaped (arc_value solved.now.source).program solved.now.table }
    ensures { IfOk result (λ bytes. bytes.items
        ≡ printed (arc_value solved.now.source).program solved.now.table ++ codes "complete\n") }
{
    let mut bytes = print_table(alloc, solved.source.program(), &solved.table)?;
    bytes.extend_from_slice(b"complete\n")?;
    Ok(bytes)
}

//! The command `run`: the lines of one run of a file's program, by the choices of a schedule.
ghost use Rattle.std.specs.Prelude.{◌≡◌, ◌≤◌, ◌<◌, ℕ, List, Ok, Err, IfOk, IfErr, IfSome, IsUtf8, length, vec_len};
ghost use Rattle.gobpie_main.specs.Run.{AnswersRun, AsksForBoth, IsRunOf, IsScheduleFault, schedule_in};
ghost use Rattle.gobpie_main.specs.Loading.{IsLoadOf};

use crate::fault::{Answer, Fault};
use crate::loading::{load, source_in};
use c_lex::TEXT_LIMIT;
use c_meaning::Choice;
use gob_outside::Files;
use gob_tree::{Seq, Text};
use run_lines::{print_run, read_schedule};
use std::alloc::Global;

/// The greatest number of bytes of a schedule.
pub const SCHEDULE_LIMIT: usize = 4_194_304;

/// The lines of the run of the file's program by the choices of the schedule. Both are loaded,
/// whatever the load of the file gives.
pub fn run_file<F: Files>(alloc: Global, file: &Text, schedule: &Text, files: &mut F) -> Answer
    requires file { IsUtf8 file.now }
    requires schedule { IsUtf8 schedule.now }
    ensures answer { AnswersRun file.now schedule.now result (F.seen files.old) (F.seen files.new) }
    ensures asks { AsksForBoth file.now schedule.now (F.seen files.old) (F.seen files.new) }
{
    let text = load(alloc, file, TEXT_LIMIT, files);
    let choices = load(alloc, schedule, SCHEDULE_LIMIT, files);
    run_text(alloc, text?, choices?)
}

/// The lines of the run of a text by a schedule, both of which were loaded.
fn run_text(alloc: Global, text: Option<Vec<u8>>, schedule: Option<Vec<u8>>) -> Answer
    requires { IfSome schedule (λ bytes. vec_len bytes ≤ SCHEDULE_LIMIT) }
    ensures { (read choices : List ℕ) → IsLoadOf TEXT_LIMIT read text
        → IsLoadOf SCHEDULE_LIMIT choices schedule → IsRunOf read choices result }
{
    let source = source_in(alloc, text)?;
    let choices = choices_in(alloc, schedule)?;
    let lines = print_run(alloc, source.unit(), choices.as_slice())?;
    Ok(lines)
}

/// The choices of a schedule that was loaded. Its faults are `BadLine`, with the first bad line or
/// 0 where the schedule is too long, and `Memory`.
fn choices_in(alloc: Global, schedule: Option<Vec<u8>>) -> Result<Seq<Choice>, Fault>
    requires { IfSome schedule (λ bytes. vec_len bytes ≤ SCHEDULE_LIMIT) }
    ensures choices { (text : List ℕ) → IsLoadOf SCHEDULE_LIMIT text schedule
        → IfOk result (λ choices. schedule_in text ≡ Ok choices) }
    ensures few { IfOk result (λ choices. length choices < 4294967294) }
    ensures fault { (text : List ℕ) → IsLoadOf SCHEDULE_LIMIT text schedule
        → IfErr result (IsScheduleFault text) }
{
    let Some(text) = schedule else {
        return Err(Fault::BadLine(0));
    };
    match read_schedule(alloc, text.as_slice())? {
        Ok(choices) => Ok(choices),
        Err(line) => Err(Fault::BadLine(line)),
    }
}

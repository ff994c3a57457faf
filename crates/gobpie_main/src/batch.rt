//! The commands that wait for nobody.
ghost use Rattle.std.specs.Prelude.{Some};
ghost use Rattle.gobpie_main.specs.Batch.{Answers, AnswersWords};
ghost use Rattle.gobpie_main.specs.Command.{IsProper, command_of};

use crate::analyse::analyse;
use crate::fault::{Answer, Fault};
use crate::load::load;
use crate::run::run_file;
use crate::status::Status;
use crate::tell::tell;
use crate::words::{BuiltCommand, command_of};
use gob_outside::{Files, Sink};
use gob_tree::Text;
use std::alloc::Global;

/// Does what the words ask for: `analyse FILE [--budget N]` prints the table of the file's program,
/// `run FILE SCHEDULE` the lines of its run by the choices of the schedule, and
/// `load NUMBER [--functions N]` what comes of a generated program under eight edits.
/// The words are those after the program's name.
pub fn run_batch<F: Files, O: Sink>(
    alloc: Global,
    words: &[Text],
    files: &mut F,
    out: &mut O,
) -> Status
    ensures { AnswersWords words.now result (F.seen files.old) (F.seen files.new)
        (O.seen out.old) (O.seen out.new) }
{
    let answer = answer_to(alloc, words, files);
    tell(alloc, answer, out)
}

/// The answer to the words.
fn answer_to<F: Files>(alloc: Global, words: &[Text], files: &mut F) -> Answer
    ensures { Answers (command_of words.now) result (F.seen files.old) (F.seen files.new) }
{
    match command_of(alloc, words)? {
        Some(command) => answer_command(alloc, command, files),
        None => Err(Fault::Usage),
    }
}

/// The answer to a command.
fn answer_command<F: Files>(alloc: Global, command: BuiltCommand, files: &mut F) -> Answer
    requires { IsProper command }
    ensures { Answers (Some command) result (F.seen files.old) (F.seen files.new) }
{
    match command {
        BuiltCommand::Analyse { file, budget } => analyse(alloc, &file, budget, files),
        BuiltCommand::Run { file, schedule } => run_file(alloc, &file, &schedule, files),
        BuiltCommand::Load { number, functions } => load(alloc, number, functions),
    }
}

//! The reading of the program's words.
ghost use Rattle.std.specs.Prelude.{◌≡◌, IfOk, IfSome};
ghost use Rattle.gobpie_main.specs.Command.{IsProper, built_of, command_of};

use command_words::{CommandLine, read_command};
use gob_tree::{Memory, Text};
use std::alloc::Global;

/// What the words ask for, of the commands that are built.
#[derive(Drop)]
pub enum BuiltCommand {
    /// `analyse FILE [--budget N]`: the table of a program, by at most `budget` turns.
    Analyse { file: Text, budget: u64 },
    /// `run FILE SCHEDULE`: one run of a program, by the choices of a schedule.
    Run { file: Text, schedule: Text },
    /// `load NUMBER [--functions N]`: a generated program of so many functions.
    Load { number: u64, functions: u32 },
}

/// What the words ask for; `None` exactly where they have no reading, or ask for a command that
/// isn't built. `Memory` is want of memory.
pub fn command_of(alloc: Global, words: &[Text]) -> Result<Option<BuiltCommand>, Memory>
    ensures reading { IfOk result (λ o. o ≡ command_of words.now) }
    ensures proper { IfOk result (λ o. IfSome o IsProper) }
{
    match read_command(alloc, words)? {
        Some(line) => Ok(built(line)),
        None => Ok(None),
    }
}

/// The command that a line asks for, if it is built.
fn built(line: CommandLine) -> Option<BuiltCommand>
    ensures { result ≡ built_of line }
{
    match line {
        CommandLine::Analyse { file, budget } => Some(BuiltCommand::Analyse { file, budget }),
        CommandLine::Run { file, schedule } => Some(BuiltCommand::Run { file, schedule }),
        CommandLine::Load { number, functions } => Some(BuiltCommand::Load { number, functions }),
        CommandLine::Replay { .. } | CommandLine::Debug { .. } | CommandLine::Serve { .. } => None,
    }
}

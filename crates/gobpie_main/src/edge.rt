//! The edge between the system and the top call.
ghost use Rattle.std.specs.Prelude.{◌≡◌, ◌↔◌, IfOk, IfSome, IsTrue, Some, codes, slice_get};
ghost use Rattle.std.specs.Process.{exit_status};
ghost use Rattle.gobpie_main.specs.Arguments.{AnswersArguments};
ghost use Rattle.gobpie_main.specs.Status.{exit_number};

use crate::arguments::{Arguments, StdArguments, words_of};
use crate::batch::run_batch;
use crate::fault::Fault;
use crate::status::Status;
use crate::tell::tell;
use gob_outside::{Files, Sink, StdFiles, StdOut};
use gob_tree::Memory;
use std::alloc::Global;
use std::env::Env;
use std::io::Write;
use std::process::ExitCode;
use std::rt::Files as FileAccess;

/// Does what the words after the program's name ask for, and ends with the number of the status.
pub fn run_arguments<A: Arguments, F: Files, O: Sink>(
    alloc: Global,
    arguments: &A,
    files: &mut F,
    out: &mut O,
) -> ExitCode
    ensures { AnswersArguments (A.told arguments.now) (exit_status result)
        (F.seen files.old) (F.seen files.new) (O.seen out.old) (O.seen out.new) }
{
    match words_of(alloc, arguments) {
        Ok(words) => exit_code(run_batch(alloc, words.as_slice(), files, out)),
        Err(Memory) => exit_code(tell(alloc, Err(Fault::Memory), out)),
    }
}

/// The exit code of a status: its number.
fn exit_code(status: Status) -> ExitCode
    ensures { exit_status result ≡ exit_number status }
{
    ExitCode::from(status.number())
}

/// Whether the first word is `debug`. `Memory` is want of memory.
fn is_debug<A: Arguments>(alloc: Global, arguments: &A) -> Result<bool, Memory>
    ensures { IfOk result (λ is. IfSome (A.told arguments.now)
        (λ all. IsTrue is ↔ (slice_get all 1 ≡ Some (codes "debug")))) }
{
    match arguments.argument(alloc, 1)? {
        Some(word) => Ok(word.as_bytes() == b"debug".as_slice()),
        None => Ok(false),
    }
}

/// The program, over the arguments and files of the system. It writes to `out`; where the first word
/// is `debug`, to `error`, since standard output is then the session's.
pub fn program<R: Env + FileAccess + AllocGlobal, O: Write + Drop, E: Write + Drop>(
    rt: &R,
    out: O,
    error: E,
) -> ExitCode {
    let arguments = StdArguments::new(rt);
    let mut files = StdFiles::new(rt.alloc(), rt);
    match is_debug(rt.alloc(), &arguments) {
        Ok(true) => {
            let mut out = StdOut::new(error);
            run_arguments(rt.alloc(), &arguments, &mut files, &mut out)
        }
        _ => {
            let mut out = StdOut::new(out);
            run_arguments(rt.alloc(), &arguments, &mut files, &mut out)
        }
    }
}

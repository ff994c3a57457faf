//! Prints the table of each program of `data`, under a line with its name. What it must print was
//! made by a second computation that shares no code with the crates, whatever the order of turns.
#![tactic(auto)]

use gob_outside::{Files, Sink, StdFiles, StdOut, write_all};
use gob_tree::{Memory, Text};
use gobpie_main::{Status, run_batch};
use std::alloc::Global;
use std::io;
use std::process::ExitCode;

/// The programs, by what they are about.
const NAMES: [&str; 80] = [
    "sums.c",
    "operators.c",
    "compares.c",
    "unset.c",
    "wraps.c",
    "short_logic.c",
    "division_by_zero.c",
    "division_by_some.c",
    "updates.c",
    "nothing.c",
    "branch.c",
    "guards_local.c",
    "guards_two_sides.c",
    "guards_or.c",
    "guards_not.c",
    "guards_equal.c",
    "guards_dead.c",
    "same_local_twice.c",
    "dangling_else.c",
    "asserts.c",
    "assert_never.c",
    "while.c",
    "do.c",
    "for.c",
    "for_parts.c",
    "for_two.c",
    "break_continue.c",
    "do_continue.c",
    "for_continue.c",
    "endless.c",
    "nested_loops.c",
    "no_threshold.c",
    "hidden.c",
    "sharp_names.c",
    "for_scope.c",
    "globals.c",
    "global_twice.c",
    "global_loop.c",
    "global_logic.c",
    "global_unread.c",
    "long.c",
    "long_literals.c",
    "long_unset.c",
    "long_ends.c",
    "long_calls.c",
    "long_loop.c",
    "long_global.c",
    "nondet.c",
    "no_return.c",
    "call.c",
    "contexts.c",
    "two_arguments.c",
    "three_arguments.c",
    "void_call.c",
    "nested_calls.c",
    "never_called.c",
    "call_never_ends.c",
    "call_in_condition.c",
    "call_without_value.c",
    "forward.c",
    "recursion.c",
    "recursion_void.c",
    "recursion_endless.c",
    "argument_order.c",
    "locks.c",
    "lock_twice.c",
    "lock_maybe.c",
    "lock_loop.c",
    "lock_contexts.c",
    "lock_in_callee.c",
    "callee_releases.c",
    "thread.c",
    "thread_join.c",
    "thread_locals.c",
    "threads_of_threads.c",
    "thread_of_itself.c",
    "thread_under_lock.c",
    "thread_calls.c",
    "handshake.c",
    "worker.c",
];

fn main(rt: HostRuntime) -> ExitCode {
    let mut files = StdFiles::new(rt.alloc(), &rt);
    let mut out = StdOut::new(io::writer(&rt));
    for name in NAMES {
        match show(rt.alloc(), name, &mut files, &mut out) {
            Ok(Status::Ok) => {}
            _ => return ExitCode::from(1),
        }
    }
    ExitCode::from(0)
}

/// Prints the name, and then what `analyse` prints. `Memory` is want of memory.
fn show<F: Files, O: Sink>(
    alloc: Global,
    name: &str,
    files: &mut F,
    out: &mut O,
) -> Result<Status, Memory> {
    if write_all(out, b"== ").is_err()
        || write_all(out, name.as_bytes()).is_err()
        || write_all(out, b"\n").is_err()
    {
        return Ok(Status::WriteFault);
    }
    let mut words = Vec::new(alloc);
    words.push(Text::of(alloc, b"analyse")?)?;
    words.push(Text::of(alloc, name.as_bytes())?)?;
    Ok(run_batch(alloc, words.as_slice(), files, out))
}

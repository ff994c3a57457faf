//! What a command answers is written, as far as the sink takes it, and gives its status.
ghost use Rattle.std.specs.Prelude.{◌++◌, OnErr, OnOk};
ghost use Rattle.gobpie_main.specs.Tell.{CutShort, Said, Tells, TellsFault, TellsLines, Wrote};

use crate::fault::{Answer, Fault};
use crate::status::Status;
use gob_outside::{Failed, Sink, write_all};
use std::alloc::Global;

/// Writes an answer: its lines, or the line of its fault.
pub fn tell<O: Sink>(alloc: Global, answer: Answer, out: &mut O) -> Status
    ensures { Tells answer result (O.seen out.old) (O.seen out.new) }
{
    match answer {
        Ok(lines) => tell_lines(lines.as_slice(), out),
        Err(fault) => tell_fault(alloc, &[], fault, out),
    }
}

/// Writes the lines of a command that ends well: `Ok` once the sink has passed them all on, else
/// `WriteFault`.
fn tell_lines<O: Sink>(lines: &[u8], out: &mut O) -> Status
    ensures { TellsLines lines.now result (O.seen out.old) (O.seen out.new) }
{
    match write_out(lines, out) {
        Ok(()) => Status::Ok,
        Err(Failed) => Status::WriteFault,
    }
}

/// Writes the lines of a command, and behind them the line of the fault that ends it. The status is
/// the fault's, whatever the sink takes; where memory is wanting for the line, that of `Memory`.
pub fn tell_fault<O: Sink>(alloc: Global, lines: &[u8], fault: Fault, out: &mut O) -> Status
    ensures { TellsFault lines.now fault result (O.seen out.old) (O.seen out.new) }
{
    match fault.line(alloc) {
        Ok(line) => {
            say(lines, line.as_slice(), out);
            fault.status()
        }
        Err(_) => {
            say(lines, b"memory\n", out);
            Status::Memory
        }
    }
}

/// Writes one and then the other, as far as the sink takes them.
fn say<O: Sink>(first: &[u8], second: &[u8], out: &mut O)
    ensures { Said (O.seen out.old) (O.seen out.new) (first.now ++ second.now) }
{
    match write_all(out, first) {
        Ok(()) => {
            let _cut_short = write_out(second, out);
        }
        Err(_) => {}
    }
}

/// Writes all bytes, and has the sink pass them on.
fn write_out<O: Sink>(bytes: &[u8], out: &mut O) -> Result<(), Failed>
    ensures all { OnOk result (Wrote (O.seen out.old) (O.seen out.new) bytes.now) }
    ensures failed { OnErr result (CutShort (O.seen out.old) (O.seen out.new) bytes.now) }
{
    match write_all(out, bytes) {
        Ok(()) => out.flush(),
        Err(_) => Err(Failed),
    }
}

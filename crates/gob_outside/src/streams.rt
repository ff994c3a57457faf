// The system's streams. A call that the system interrupts is made again, within a budget; one that
// fails is counted, and so is an end of the input.
ghost use Rattle.std.specs.Prelude.{◌≡◌, ◌<◌, ◌≤◌, length, take, IfSome, IfNone, IfOk, OnOk, OnErr};
ghost use Rattle.std.specs.Io.KnownBytes.{Appends, Keeps, Consumes, IsAtEnd};
ghost use Rattle.gob_outside.specs.Count.{Rose};

use crate::failed::Failed;
use std::io;
use std::io::{ErrorKind, Read, Write};

// How often a call that the system interrupts is made.
pub(crate) const TRIES: u32 = 1000;

// Reads to the front of `into`, and counts a failure or an end.
pub(crate) fn read_counted<R: Read>(
    stream: &mut R,
    into: &mut [u8],
    faults: &mut u64,
    ends: &mut u64,
) -> Result<usize, Failed>
    ensures within { IfOk result (λ n. n ≤ length into.new) }
    ensures read { IfOk result (λ n.
        Consumes (R.remaining stream.old) (R.remaining stream.new) (take n into.new)) }
    ensures at_end { IfOk result (λ n. n ≡ 0 → 0 < length into.old → IsAtEnd (R.remaining stream.new)) }
    ensures kept { OnErr result (Keeps (R.remaining stream.old) (R.remaining stream.new)) }
    ensures end { IfOk result (λ n. n ≡ 0 → 0 < length into.old → Rose ends.old ends.new) }
    ensures goes_on { IfOk result (λ n. 0 < n → ends.new ≡ ends.old) }
    ensures ends_never_fall { ends.old ≤ ends.new }
    ensures fine { OnOk result (faults.new ≡ faults.old) }
    ensures failed { OnErr result (Rose faults.old faults.new) }
    ensures never_falls { faults.old ≤ faults.new }
{
    let Ok(count) = read_some(stream, into) else {
        *faults = faults.saturating_add(1);
        return Err(Failed);
    };
    if count == 0 && !into.is_empty() {
        *ends = ends.saturating_add(1);
    }
    Ok(count)
}

// Writes some of a piece, and counts a failure.
pub(crate) fn write_counted<W: Write>(
    stream: &mut W,
    piece: &[u8],
    faults: &mut u64,
) -> Result<usize, Failed>
    ensures within { IfOk result (λ n. n ≤ length piece.now) }
    ensures moves { IfOk result (λ n. 0 < length piece.now → 0 < n) }
    ensures wrote { IfOk result (λ n.
        Appends (W.contents stream.old) (W.contents stream.new) (take n piece.now)) }
    ensures kept { OnErr result (Keeps (W.contents stream.old) (W.contents stream.new)) }
    ensures fine { OnOk result (faults.new ≡ faults.old) }
    ensures failed { OnErr result (Rose faults.old faults.new) }
    ensures never_falls { faults.old ≤ faults.new }
{
    if let Some(count) = write_some(stream, piece) {
        return Ok(count);
    }
    *faults = faults.saturating_add(1);
    Err(Failed)
}

// Has a stream pass on what it holds back, and counts a failure.
pub(crate) fn flush_counted<W: Write>(stream: &mut W, faults: &mut u64) -> Result<(), Failed>
    ensures kept { Keeps (W.contents stream.old) (W.contents stream.new) }
    ensures fine { OnOk result (faults.new ≡ faults.old) }
    ensures failed { OnErr result (Rose faults.old faults.new) }
    ensures never_falls { faults.old ≤ faults.new }
{
    if flush_some(stream) {
        return Ok(());
    }
    *faults = faults.saturating_add(1);
    Err(Failed)
}

// Reads some bytes to the front of `into`; 0 into some room is the end.
pub(crate) fn read_some<R: Read>(stream: &mut R, into: &mut [u8]) -> io::Result<usize>
    ensures within { IfOk result (λ n. n ≤ length into.new) }
    ensures read { IfOk result (λ n.
        Consumes (R.remaining stream.old) (R.remaining stream.new) (take n into.new)) }
    ensures at_end { IfOk result (λ n. n ≡ 0 → 0 < length into.old → IsAtEnd (R.remaining stream.new)) }
    ensures kept { OnErr result (Keeps (R.remaining stream.old) (R.remaining stream.new)) }
{
    for _ in 0..TRIES {
        match stream.read(into) {
            Err(error) if error.kind() == ErrorKind::Interrupted => {}
            outcome => return outcome,
        }
    }
    Err(io::Error::from(ErrorKind::Interrupted))
}

// Writes some of a piece, at least one byte of one that isn't empty; `None` is a failure.
fn write_some<W: Write>(stream: &mut W, piece: &[u8]) -> Option<usize>
    ensures within { IfSome result (λ n. n ≤ length piece.now) }
    ensures moves { IfSome result (λ n. 0 < length piece.now → 0 < n) }
    ensures wrote { IfSome result (λ n.
        Appends (W.contents stream.old) (W.contents stream.new) (take n piece.now)) }
    ensures kept { IfNone result (Keeps (W.contents stream.old) (W.contents stream.new)) }
{
    for _ in 0..TRIES {
        match stream.write(piece) {
            Ok(count) if count > 0 || piece.is_empty() => return Some(count),
            Err(error) if error.kind() == ErrorKind::Interrupted => {}
            _ => return None,
        }
    }
    None
}

// Whether the stream could be flushed.
fn flush_some<W: Write>(stream: &mut W) -> bool
    ensures kept { Keeps (W.contents stream.old) (W.contents stream.new) }
{
    for _ in 0..TRIES {
        match stream.flush() {
            Ok(()) => return true,
            Err(error) if error.kind() == ErrorKind::Interrupted => {}
            Err(_) => return false,
        }
    }
    false
}

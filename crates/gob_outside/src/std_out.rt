ghost use Rattle.std.specs.Prelude.{◌≡◌, ◌<◌, ◌≤◌, length, take, None, IfOk, OnOk, OnErr};
ghost use Rattle.std.specs.Io.KnownBytes.{Appends, Keeps};
ghost use Rattle.std.proofs.Common.{le_refl, le_trans};
ghost use Rattle.gob_outside.specs.Sink.{silent};
ghost use Rattle.gob_outside.specs.Count.{Rose};

use crate::failed::Failed;
use crate::sink::Sink;
use crate::streams::{flush_counted, write_counted};
use std::io::Write;

/// A stream of the system as a sink: standard output, or standard error. It counts the writes and
/// flushes that failed, and tells nothing of what was written.
#[derive(Drop)]
pub struct StdOut<W> {
    stream: W,
    faults: u64,
}

impl<W: Write> StdOut<W> {
    /// A sink over the stream, of which no call failed yet.
    pub fn new(stream: W) -> StdOut<W>
        ensures stream { result.stream ≡ stream }
        ensures faults { result.faults ≡ 0 }
    {
        StdOut { stream, faults: 0 }
    }
}

impl<W: Write> Sink for StdOut<W> {
    ghost seen = { λ sink. silent sink.faults };

    ghost write_step = { λ before after. before.faults ≤ after.faults };

    /// Has the stream write a piece, and makes a write that the system interrupted again. A closed
    /// pipe and a full device are `Failed`.
    fn write(&mut self, piece: &[u8]) -> Result<usize, Failed>
        ensures passed_on { IfOk result (λ n.
            Appends (W.contents self.old.stream) (W.contents self.new.stream) (take n piece.now)) }
        ensures passed_nothing { OnErr result (Keeps (W.contents self.old.stream) (W.contents self.new.stream)) }
        ensures within { IfOk result (λ n. n ≤ length piece.now) }
        ensures moves { IfOk result (λ n. 0 < length piece.now → 0 < n) }
        ensures fine { OnOk result (self.new.faults ≡ self.old.faults) }
        ensures failed { OnErr result (Rose self.old.faults self.new.faults) }
        ensures never_falls { self.old.faults ≤ self.new.faults }
    {
        write_counted(&mut self.stream, piece, &mut self.faults)
    }

    fn flush(&mut self) -> Result<(), Failed>
        ensures passed_nothing { Keeps (W.contents self.old.stream) (W.contents self.new.stream) }
        ensures fine { OnOk result (self.new.faults ≡ self.old.faults) }
        ensures failed { OnErr result (Rose self.old.faults self.new.faults) }
        ensures never_falls { self.old.faults ≤ self.new.faults }
    {
        flush_counted(&mut self.stream, &mut self.faults)
    }

    ghost write_stays = { λ before. le_refl before.faults };

    ghost write_goes_on = { λ _ _ _ first second. le_trans first second };
}

#[cfg(test)]
mod tests {
    use super::*;
    use crate::write::{Short, write_all};
    use std::io::ErrorKind;
    use std::{fs, io};

    // A stream that is interrupted, then takes a byte, and then is closed. It can't be flushed.
    #[derive(Drop)]
    struct Closing {
        calls: u8,
    }

    impl Write for Closing {
        fn write(&mut self, piece: &[u8]) -> io::Result<usize> {
            self.calls = self.calls.saturating_add(1);
            match self.calls {
                1 => Err(io::Error::from(ErrorKind::Interrupted)),
                2 => Ok(piece.len().min(1)),
                _ => Err(io::Error::from(ErrorKind::BrokenPipe)),
            }
        }

        fn flush(&mut self) -> io::Result<()> {
            Err(io::Error::from(ErrorKind::BrokenPipe))
        }
    }

    #[test]
    fn writes_to_the_system(rt: HostRuntime) -> io::Result<()> {
        let mut standard = StdOut::new(rt.stdout());
        assert_eq!(rt; write_all(&mut standard, b"\n"), Ok(()));
        assert_eq!(rt; standard.flush(), Ok(()));
        let mut full = StdOut::new(fs::create(&rt, "/dev/full")?);
        assert_eq!(rt; write_all(&mut full, b"hello"), Err(Short { sent: 0 }));
        assert_eq!(rt; full.faults, 1);
        Ok(())
    }

    #[test]
    fn stops_at_a_closed_stream(rt: HostRuntime) {
        let mut closing = StdOut::new(Closing { calls: 0 });
        assert_eq!(rt; write_all(&mut closing, b"hello"), Err(Short { sent: 1 }));
        assert_eq!(rt; closing.flush(), Err(Failed));
        assert_eq!(rt; closing.faults, 2);
    }
}

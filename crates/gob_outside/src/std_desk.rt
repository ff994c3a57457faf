ghost use Rattle.std.specs.Prelude.{◌≡◌, ◌<◌, ◌≤◌, length, take, None, IfOk, OnOk, OnErr};
ghost use Rattle.std.specs.Io.KnownBytes.{Appends, Consumes, IsAtEnd, Keeps};
ghost use Rattle.std.proofs.Common.{ap, refl, ◌∙◌};
ghost use Rattle.gob_outside.specs.Sink.{silent};
ghost use Rattle.gob_outside.specs.Count.{Rose};

use crate::connection::Connection;
use crate::failed::Failed;
use crate::sink::Sink;
use crate::source::Source;
use crate::std_out::StdOut;
use crate::streams::read_counted;
use std::io::{Read, Write};

/// Two streams of the system as one connection: standard input and standard output. It counts what
/// failed and the ends of the input, and tells nothing of the bytes.
#[derive(Drop)]
pub struct StdDesk<R, W> {
    reader: R,
    faults: u64,
    ends: u64,
    out: StdOut<W>,
}

impl<R: Read, W: Write> StdDesk<R, W> {
    /// A connection over the two streams, of which no call failed yet.
    pub fn new(reader: R, writer: W) -> StdDesk<R, W>
        ensures reader { result.reader ≡ reader }
        ensures writer { result.out.stream ≡ writer }
        ensures faults { (result.faults ≡ 0) × (result.out.faults ≡ 0) }
        ensures ends { result.ends ≡ 0 }
    {
        StdDesk {
            reader,
            faults: 0,
            ends: 0,
            out: StdOut::new(writer),
        }
    }
}

impl<R: Read, W: Write> Source for StdDesk<R, W> {
    ghost left = { λ _. None };

    ghost read_faults = { λ desk. desk.faults };

    ghost ends = { λ desk. desk.ends };

    ghost read_step = { λ before after. after.out ≡ before.out };

    /// Has the reader read, and makes a read that the system interrupted again.
    fn read(&mut self, into: &mut [u8]) -> Result<usize, Failed>
        ensures passed_on { IfOk result (λ n.
            Consumes (R.remaining self.old.reader) (R.remaining self.new.reader) (take n into.new)) }
        ensures at_end { IfOk result (λ n. n ≡ 0 → 0 < length into.old → IsAtEnd (R.remaining self.new.reader)) }
        ensures passed_nothing { OnErr result (Keeps (R.remaining self.old.reader) (R.remaining self.new.reader)) }
        ensures within { IfOk result (λ n. n ≤ length into.new) }
        ensures end { IfOk result (λ n. n ≡ 0 → 0 < length into.old → Rose self.old.ends self.new.ends) }
        ensures goes_on { IfOk result (λ n. 0 < n → self.new.ends ≡ self.old.ends) }
        ensures ends_never_fall { self.old.ends ≤ self.new.ends }
        ensures fine { OnOk result (self.new.faults ≡ self.old.faults) }
        ensures failed { OnErr result (Rose self.old.faults self.new.faults) }
        ensures never_falls { self.old.faults ≤ self.new.faults }
        ensures step { self.new.out ≡ self.old.out }
    {
        read_counted(&mut self.reader, into, &mut self.faults, &mut self.ends)
    }

    ghost read_stays = { λ _. refl };

    ghost read_goes_on = { λ _ _ _ first second. second ∙ first };
}

impl<R: Read, W: Write> Sink for StdDesk<R, W> {
    ghost seen = { λ desk. silent desk.out.faults };

    ghost write_step = { λ before after. (after.reader ≡ before.reader) × (after.ends ≡ before.ends)
        × (after.faults ≡ before.faults) };

    /// Has the writer write a piece, and makes a write that the system interrupted again.
    fn write(&mut self, piece: &[u8]) -> Result<usize, Failed>
        ensures passed_on { IfOk result (λ n.
            Appends (W.contents self.old.out.stream) (W.contents self.new.out.stream) (take n piece.now)) }
        ensures passed_nothing { OnErr result (Keeps (W.contents self.old.out.stream) (W.contents self.new.out.stream)) }
        ensures within { IfOk result (λ n. n ≤ length piece.now) }
        ensures moves { IfOk result (λ n. 0 < length piece.now → 0 < n) }
        ensures fine { OnOk result (self.new.out.faults ≡ self.old.out.faults) }
        ensures failed { OnErr result (Rose self.old.out.faults self.new.out.faults) }
        ensures never_falls { self.old.out.faults ≤ self.new.out.faults }
        ensures step { self.new ≡ record self.old { out = self.new.out } }
    {
        self.out.write(piece)
    }

    fn flush(&mut self) -> Result<(), Failed>
        ensures passed_nothing { Keeps (W.contents self.old.out.stream) (W.contents self.new.out.stream) }
        ensures fine { OnOk result (self.new.out.faults ≡ self.old.out.faults) }
        ensures failed { OnErr result (Rose self.old.out.faults self.new.out.faults) }
        ensures never_falls { self.old.out.faults ≤ self.new.out.faults }
        ensures step { self.new ≡ record self.old { out = self.new.out } }
    {
        self.out.flush()
    }

    ghost write_stays = { λ _. (refl, refl, refl) };

    ghost write_goes_on = { λ _ _ _ first second. (second.0 ∙ first.0, second.1 ∙ first.1, second.2 ∙ first.2) };
}

impl<R: Read, W: Write> Connection for StdDesk<R, W> {
    ghost read_leaves = { λ _ _ step. ap (λ out. silent out.faults) step };

    ghost write_leaves = { λ _ _ step. (refl, step.1, step.2) };
}

#[cfg(test)]
mod tests {
    use super::*;
    use crate::write::{Short, write_all};
    use std::io;
    use std::io::ErrorKind;

    // A reader that is always interrupted, or fails.
    #[derive(Drop)]
    struct Broken {
        kind: ErrorKind,
    }

    impl Read for Broken {
        fn read(&mut self, _into: &mut [u8]) -> io::Result<usize> {
            Err(io::Error::from(self.kind))
        }
    }

    fn may_cross_threads<C: Send>(_it: &C) {}

    #[test]
    fn pipes_as_standard_streams(rt: HostRuntime) -> io::Result<()> {
        let (reader, peer_writer) = io::pipe(&rt)?;
        let (peer_reader, writer) = io::pipe(&rt)?;
        let mut desk = StdDesk::new(reader, writer);
        let mut peer = StdDesk::new(peer_reader, peer_writer);
        let mut room = [0; 8];
        assert_eq!(rt; write_all(&mut peer, b"ask"), Ok(()));
        assert_eq!(rt; desk.read(&mut room), Ok(3));
        assert_eq!(rt; &room[..3], b"ask".as_slice());
        assert_eq!(rt; desk.read(&mut []), Ok(0));
        assert_eq!(rt; write_all(&mut desk, b"answer"), Ok(()));
        assert_eq!(rt; desk.flush(), Ok(()));
        assert_eq!(rt; peer.read(&mut room), Ok(6));
        assert_eq!(rt; &room[..6], b"answer".as_slice());
        drop(peer);
        assert_eq!(rt; desk.ends, 0);
        assert_eq!(rt; desk.read(&mut room), Ok(0));
        assert_eq!(rt; write_all(&mut desk, b"late"), Err(Short { sent: 0 }));
        assert_eq!(rt; (desk.ends, desk.faults), (1, 0));
        Ok(())
    }

    #[test]
    fn a_reader_that_never_reads(rt: HostRuntime) {
        may_cross_threads(&StdDesk::new(rt.stdin(), rt.stdout()));
        for kind in [ErrorKind::Interrupted, ErrorKind::ConnectionReset] {
            let mut desk = StdDesk::new(Broken { kind }, rt.stdout());
            assert_eq!(rt; desk.read(&mut [0; 4]), Err(Failed));
            assert_eq!(rt; (desk.faults, desk.ends), (1, 0));
        }
    }
}

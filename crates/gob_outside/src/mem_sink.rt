ghost use Rattle.std.specs.Prelude.{◌≡◌, ◌<◌, ◌≤◌, ◌+◌, ◌-◌, [], length, take, vec_len, min, IfOk, OnErr, MatchResult};
ghost use Rattle.gob_outside.specs.Count.{Rose};
ghost use Rattle.gob_outside.specs.MemSink.{WritesOn, told, write_answer, flush_answer, after_moving, after_failure};
ghost use Rattle.gob_outside.specs.Steps.{writes_stay, writes_go_on};

use crate::calls::fails_now;
use crate::failed::Failed;
use crate::sink::Sink;
use gob_tree::Memory;
use std::alloc::Global;
use std::marker::Model;

/// A sink in memory, which takes its bytes in pieces and fails at chosen calls.
#[derive(Debug, Drop)]
pub struct MemSink {
    bytes: Vec<u8>,
    len: usize,
    piece: usize,
    failing: Vec<u64>,
    calls: u64,
    faults: u64,
}

impl Model for MemSink {
    ghost use Rattle.std.specs.Prelude.{◌-◌, ◌≤◌, ◌<◌, take, vec_len};
    ghost use Rattle.gob_outside.specs.MemSink.{SinkState};

    ghost Value = { SinkState };

    ghost view = { λ s. record {
      written = take s.len s.bytes.items;
      room = vec_len s.bytes - s.len;
      piece = s.piece;
      failing = s.failing.items;
      calls = s.calls;
      faults = s.faults;
    } };

    ghost invariant = { λ s. (s.len ≤ vec_len s.bytes) × (0 < s.piece) };
}

impl MemSink {
    /// An empty sink with room for `room` bytes, which it takes here, so no write wants memory.
    /// A write moves at most `piece` bytes. `failing` lists the writes and flushes that are to
    /// fail, counted together from 1. `Memory` is want of memory.
    pub fn new(
        alloc: Global,
        room: usize,
        piece: usize,
        failing: Vec<u64>,
    ) -> Result<MemSink, Memory>
        requires { 0 < piece }
        ensures { IfOk result (λ sink. sink ≡ record {
          written = [];
          room = room;
          piece = piece;
          failing = failing.items;
          calls = 0;
          faults = 0;
        }) }
    {
        let bytes = vec![in alloc; 0; room]?;
        Ok(MemSink {
            bytes,
            len: 0,
            piece,
            failing,
            calls: 0,
            faults: 0,
        })
    }

    /// The bytes written so far.
    pub fn written(&self) -> &[u8]
        ensures { result.now ≡ self.now.written }
    {
        &self.bytes[..self.len]
    }

    // Moves as many bytes as the piece and the room allow, where this call isn't one that fails.
    fn write_piece(&mut self, piece: &[u8]) -> Result<usize, Failed>
        ensures answer { result ≡ write_answer self.old piece.now }
        ensures state { MatchResult result
            (λ n. self.new ≡ after_moving self.old (take n piece.now))
            (λ _. self.new ≡ after_failure self.old) }
        ensures within { IfOk result (λ n. n ≤ length piece.now) }
        ensures moves { IfOk result (λ n. 0 < length piece.now → 0 < n) }
        ensures failed { OnErr result (Rose self.old.faults self.new.faults) }
        ensures never_falls { self.old.faults ≤ self.new.faults }
    {
        if fails_now(&self.failing, &mut self.calls) {
            self.faults = self.faults.saturating_add(1);
            return Err(Failed);
        }
        if piece.is_empty() {
            return Ok(0);
        }
        let count = piece.len().min(self.piece).min(self.bytes.len() - self.len);
        if count == 0 {
            self.faults = self.faults.saturating_add(1);
            return Err(Failed);
        }
        self.bytes[self.len..self.len + count].copy_from_slice(&piece[..count]);
        self.len += count;
        Ok(count)
    }
}

impl Sink for MemSink {
    ghost seen = { told };

    ghost write_step = { WritesOn };

    /// Moves as many bytes as the piece and the room allow. A piece that isn't empty fails where
    /// no room is left.
    #[tactic(auto, using(crate::proofs::Steps::write_is_step, crate::proofs::Steps::failed_write_is_step))]
    fn write(&mut self, piece: &[u8]) -> Result<usize, Failed>
        ensures answer { result ≡ write_answer self.old piece.now }
        ensures state { MatchResult result
            (λ n. self.new ≡ after_moving self.old (take n piece.now))
            (λ _. self.new ≡ after_failure self.old) }
        ensures within { IfOk result (λ n. n ≤ length piece.now) }
        ensures moves { IfOk result (λ n. 0 < length piece.now → 0 < n) }
        ensures failed { OnErr result (Rose self.old.faults self.new.faults) }
        ensures never_falls { self.old.faults ≤ self.new.faults }
        ensures step { WritesOn self.old self.new }
    {
        self.write_piece(piece)
    }

    fn flush(&mut self) -> Result<(), Failed>
        ensures answer { result ≡ flush_answer self.old }
        ensures state { MatchResult result
            (λ _. self.new ≡ after_moving self.old [])
            (λ _. self.new ≡ after_failure self.old) }
        ensures failed { OnErr result (Rose self.old.faults self.new.faults) }
        ensures never_falls { self.old.faults ≤ self.new.faults }
        ensures step { WritesOn self.old self.new }
    {
        if fails_now(&self.failing, &mut self.calls) {
            self.faults = self.faults.saturating_add(1);
            return Err(Failed);
        }
        Ok(())
    }

    ghost write_stays = { writes_stay };

    ghost write_goes_on = { writes_go_on };
}

#[cfg(test)]
mod tests {
    use super::*;
    use crate::write::{Short, write_all};

    #[test]
    fn writes_in_pieces(rt: HostRuntime) -> Result<(), Memory> {
        let failing = vec![in rt.alloc(); 2]?;
        let mut sink = MemSink::new(rt.alloc(), 5, 2, failing)?;
        assert_eq!(rt; sink.write(b"abc"), Ok(2));
        assert_eq!(rt; sink.write(b"c"), Err(Failed));
        assert_eq!(rt; sink.write(b"c"), Ok(1));
        assert_eq!(rt; sink.write(b""), Ok(0));
        assert_eq!(rt; sink.flush(), Ok(()));
        assert_eq!(rt; write_all(&mut sink, b"defg"), Err(Short { sent: 2 }));
        assert_eq!(rt; sink.written(), b"abcde".as_slice());
        assert_eq!(rt; sink.faults, 2);
        Ok(())
    }

    #[test]
    fn each_write_failing(rt: HostRuntime) -> Result<(), Memory> {
        for (call, sent) in [(1, 0), (2, 2), (3, 4)] {
            let failing = vec![in rt.alloc(); call]?;
            let mut sink = MemSink::new(rt.alloc(), 9, 2, failing)?;
            assert_eq!(rt; write_all(&mut sink, b"hello"), Err(Short { sent }));
            assert_eq!(rt; sink.written().len(), sent);
            assert_eq!(rt; write_all(&mut sink, b"lo"), Ok(()));
        }
        Ok(())
    }
}

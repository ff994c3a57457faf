ghost use Rattle.std.specs.Prelude.{◌≡◌, ◌<◌, ◌≤◌, ◌↔◌, ℕ, [], length, take, Some, IsOk, IfOk, OnErr, MatchResult};
ghost use Rattle.gob_outside.specs.Count.{Rose};
ghost use Rattle.gob_outside.specs.MemSource.{ReadsOn, read_answer, after_reading, after_failed_read};
ghost use Rattle.gob_outside.specs.Steps.{reads_stay, reads_go_on};

use crate::calls::fails_now;
use crate::failed::Failed;
use crate::source::Source;
use gob_tree::Memory;
use std::marker::Model;

/// A source in memory, which gives its bytes in pieces and fails at chosen calls.
#[derive(Debug, Drop)]
pub struct MemSource {
    bytes: Vec<u8>,
    at: usize,
    piece: usize,
    failing: Vec<u64>,
    calls: u64,
    faults: u64,
    ends: u64,
}

impl Model for MemSource {
    ghost use Rattle.std.specs.Prelude.{◌≤◌, ◌<◌, drop, vec_len};
    ghost use Rattle.gob_outside.specs.MemSource.{SourceState};

    ghost Value = { SourceState };

    ghost view = { λ s. record {
      left = drop s.at s.bytes.items;
      piece = s.piece;
      failing = s.failing.items;
      calls = s.calls;
      faults = s.faults;
      ends = s.ends;
    } };

    ghost invariant = { λ s. (s.at ≤ vec_len s.bytes) × (0 < s.piece) };
}

impl MemSource {
    /// A source that has these bytes. A read moves at most `piece` of them. `failing` lists the
    /// reads that are to fail, counted from 1. It takes no memory.
    pub fn new(bytes: Vec<u8>, piece: usize, failing: Vec<u64>) -> Result<MemSource, Memory>
        requires { 0 < piece }
        ensures made { IsOk result }
        ensures source { IfOk result (λ source. source ≡ record {
          left = bytes.items;
          piece = piece;
          failing = failing.items;
          calls = 0;
          faults = 0;
          ends = 0;
        }) }
    {
        Ok(MemSource {
            bytes,
            at: 0,
            piece,
            failing,
            calls: 0,
            faults: 0,
            ends: 0,
        })
    }

    // Moves as many bytes as the piece and the room allow, where this call isn't one that fails.
    fn read_piece(&mut self, into: &mut [u8]) -> Result<usize, Failed>
        ensures answer { result ≡ read_answer self.old (length into.old) }
        ensures state { MatchResult result
            (λ n. self.new ≡ after_reading self.old (length into.old) n)
            (λ _. self.new ≡ after_failed_read self.old) }
        ensures within { IfOk result (λ n. n ≤ length into.new) }
        ensures moved { IfOk result (λ n. take n into.new ≡ take n self.old.left) }
        ensures end { IfOk result (λ n. n ≡ 0 → 0 < length into.old → Rose self.old.ends self.new.ends) }
        ensures end_told { IfOk result (λ n. 0 < length into.old → (n ≡ 0) ↔ (self.old.left ≡ [])) }
        ensures goes_on { IfOk result (λ n. 0 < n → self.new.ends ≡ self.old.ends) }
        ensures ends_never_fall { self.old.ends ≤ self.new.ends }
        ensures failed { OnErr result (Rose self.old.faults self.new.faults) }
        ensures never_falls { self.old.faults ≤ self.new.faults }
    {
        if fails_now(&self.failing, &mut self.calls) {
            self.faults = self.faults.saturating_add(1);
            return Err(Failed);
        }
        let count = into.len().min(self.piece).min(self.bytes.len() - self.at);
        if count == 0 && !into.is_empty() {
            self.ends = self.ends.saturating_add(1);
        }
        into[..count].copy_from_slice(&self.bytes[self.at..self.at + count]);
        self.at += count;
        Ok(count)
    }
}

impl Source for MemSource {
    ghost left = { λ source. Some source.left };

    ghost read_faults = { λ source. source.faults };

    ghost ends = { λ source. source.ends };

    ghost read_step = { ReadsOn };

    /// Moves as many bytes as the piece and the room allow.
    fn read(&mut self, into: &mut [u8]) -> Result<usize, Failed>
        ensures answer { result ≡ read_answer self.old (length into.old) }
        ensures state { MatchResult result
            (λ n. self.new ≡ after_reading self.old (length into.old) n)
            (λ _. self.new ≡ after_failed_read self.old) }
        ensures within { IfOk result (λ n. n ≤ length into.new) }
        ensures moved { IfOk result (λ n. take n into.new ≡ take n self.old.left) }
        ensures end { IfOk result (λ n. n ≡ 0 → 0 < length into.old → Rose self.old.ends self.new.ends) }
        ensures end_told { IfOk result (λ n. 0 < length into.old → (n ≡ 0) ↔ (self.old.left ≡ [])) }
        ensures goes_on { IfOk result (λ n. 0 < n → self.new.ends ≡ self.old.ends) }
        ensures ends_never_fall { self.old.ends ≤ self.new.ends }
        ensures failed { OnErr result (Rose self.old.faults self.new.faults) }
        ensures never_falls { self.old.faults ≤ self.new.faults }
        ensures step { ReadsOn self.old self.new }
    {
        self.read_piece(into)
    }

    ghost read_stays = { reads_stay };

    ghost read_goes_on = { reads_go_on };
}

#[cfg(test)]
mod tests {
    use super::*;

    #[test]
    fn reads_in_pieces_of_a_byte(rt: HostRuntime) -> Result<(), Memory> {
        let bytes = Vec::from_slice(rt.alloc(), b"ab")?;
        let failing = vec![in rt.alloc(); 2]?;
        let mut source = MemSource::new(bytes, 1, failing)?;
        let mut room = [0; 4];
        assert_eq!(rt; source.read(&mut []), Ok(0));
        assert_eq!(rt; source.read(&mut room), Err(Failed));
        assert_eq!(rt; source.read(&mut room), Ok(1));
        assert_eq!(rt; source.read(&mut room[1..]), Ok(1));
        assert_eq!(rt; source.ends, 0);
        assert_eq!(rt; source.read(&mut room[2..]), Ok(0));
        assert_eq!(rt; room, [b'a', b'b', 0, 0]);
        assert_eq!(rt; (source.faults, source.ends), (1, 1));
        Ok(())
    }

    #[test]
    fn each_read_failing(rt: HostRuntime) -> Result<(), Memory> {
        for (call, answers) in [
            (1, [Err(Failed), Ok(2), Ok(1)]),
            (2, [Ok(2), Err(Failed), Ok(1)]),
            (3, [Ok(2), Ok(1), Err(Failed)]),
        ] {
            let bytes = Vec::from_slice(rt.alloc(), b"xyz")?;
            let failing = vec![in rt.alloc(); call]?;
            let mut source = MemSource::new(bytes, 2, failing)?;
            for answer in answers {
                assert_eq!(rt; source.read(&mut [0; 4]), answer);
            }
        }
        Ok(())
    }
}

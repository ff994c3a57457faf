ghost use Rattle.std.specs.Prelude.{◌≡◌, ◌<◌, ◌≤◌, ◌-◌, [], Some, IfOk, OnErr, MatchResult, IfNone, OnSome, OnOk};
ghost use Rattle.gob_outside.specs.Count.{Rose, one_more};
ghost use Rattle.gob_outside.specs.Door.{Gives};
ghost use Rattle.gob_outside.specs.MemDoor.{next_answer, after_giving, after_failed_next, after_done};

use crate::calls::fails_now;
use crate::door::Door;
use crate::failed::Failed;
use crate::mem_conn::MemConn;
use gob_tree::Memory;
use std::alloc::Global;
use std::marker::Model;

/// A door in memory, which gives its connections in order, fails at chosen calls, and keeps what
/// comes back.
#[derive(Debug, Drop)]
pub struct MemDoor {
    // the connections still to come, the last one first
    coming: Vec<MemConn>,
    finished: Vec<MemConn>,
    out: u64,
    failing: Vec<u64>,
    calls: u64,
    faults: u64,
    ends: u64,
}

impl Model for MemDoor {
    ghost use Rattle.std.specs.Prelude.{◌+◌, ◌≤◌, reverse, vec_len, vec_capacity};
    ghost use Rattle.gob_outside.specs.MemDoor.{DoorState};
    ghost use Rattle.gob_outside.specs.declared.mem_conn.MemConn.{MemConn};

    ghost Value = { DoorState MemConn };

    ghost view = { λ d. record {
      coming = reverse d.coming.items;
      finished = d.finished.items;
      out = d.out;
      failing = d.failing.items;
      calls = d.calls;
      faults = d.faults;
      ends = d.ends;
    } };

    // there is room for each connection that may come back
    ghost invariant = { λ d. vec_len d.coming + d.out + vec_len d.finished ≤ vec_capacity d.finished };
}

impl MemDoor {
    /// A door that gives these connections. `failing` lists the calls of `next` that are to fail,
    /// counted from 1. It takes the room for finished connections here. `Memory` is want of
    /// memory.
    pub fn new(alloc: Global, mut conns: Vec<MemConn>, failing: Vec<u64>) -> Result<MemDoor, Memory>
        ensures { IfOk result (λ door. door ≡ record {
          coming = conns.items;
          finished = [];
          out = 0;
          failing = failing.items;
          calls = 0;
          faults = 0;
          ends = 0;
        }) }
    {
        let finished = Vec::with_capacity(alloc, conns.len())?;
        conns.reverse();
        Ok(MemDoor {
            coming: conns,
            finished,
            out: 0,
            failing,
            calls: 0,
            faults: 0,
            ends: 0,
        })
    }

    /// The connections that came back so far, in order.
    pub fn finished(&self) -> &[MemConn]
        ensures { result.now ≡ self.now.finished }
    {
        self.finished.as_slice()
    }
}

impl Door for MemDoor {
    type Conn = MemConn;

    ghost coming = { λ door. Some door.coming };

    ghost finished = { λ door. Some door.finished };

    ghost out = { λ door. door.out };

    ghost faults = { λ door. door.faults };

    ghost ends = { λ door. door.ends };

    fn next(&mut self) -> Result<Option<MemConn>, Failed>
        ensures answer { result ≡ next_answer self.old }
        ensures state { MatchResult result
            (λ _. self.new ≡ after_giving self.old self.old.coming)
            (λ _. self.new ≡ after_failed_next self.old) }
        ensures given { IfOk result (λ conn. Gives (Some self.old.coming) conn (Some self.new.coming)) }
        ensures one_out { IfOk result (λ conn. OnSome conn (self.new.out ≡ one_more self.old.out)) }
        ensures none_out { IfOk result (λ conn. IfNone conn (self.new.out ≡ self.old.out)) }
        ensures end { IfOk result (λ conn. IfNone conn (Rose self.old.ends self.new.ends)) }
        ensures goes_on { IfOk result (λ conn. OnSome conn (self.new.ends ≡ self.old.ends)) }
        ensures ends_never_fall { self.old.ends ≤ self.new.ends }
        ensures failed { OnErr result (Rose self.old.faults self.new.faults) }
        ensures never_falls { self.old.faults ≤ self.new.faults }
    {
        if fails_now(&self.failing, &mut self.calls) {
            self.faults = self.faults.saturating_add(1);
            return Err(Failed);
        }
        let Some(conn) = self.coming.pop() else {
            self.ends = self.ends.saturating_add(1);
            return Ok(None);
        };
        self.out = self.out.saturating_add(1);
        Ok(Some(conn))
    }

    fn done(&mut self, conn: MemConn)
        requires { 0 < self.old.out }
        ensures { self.new ≡ after_done self.old conn }
    {
        self.out -= 1;
        self.finished.push_reserved(conn);
    }
}

#[cfg(test)]
mod tests {
    use super::*;
    use crate::mem_sink::MemSink;
    use crate::mem_source::MemSource;
    use crate::sink::Sink;
    use crate::source::Source;
    use crate::write::write_all;

    // A connection that has these bytes and room for 8.
    fn connection(alloc: Global, bytes: &[u8]) -> Result<MemConn, Memory> {
        let source = MemSource::new(Vec::from_slice(alloc, bytes)?, 1, Vec::new(alloc))?;
        let sink = MemSink::new(alloc, 8, 3, Vec::new(alloc))?;
        MemConn::new(source, sink)
    }

    // A door with two connections, of which one call of `next` fails.
    fn two(alloc: Global, fails: u64) -> Result<MemDoor, Memory> {
        let mut conns = Vec::new(alloc);
        conns.push(connection(alloc, b"a")?)?;
        conns.push(connection(alloc, b"b")?)?;
        MemDoor::new(alloc, conns, vec![in alloc; fails]?)
    }

    // Greets a connection by its first byte.
    fn greet(conn: &mut MemConn) -> Result<(), Failed> {
        let mut room = [0; 1];
        conn.read(&mut room)?;
        conn.flush()?;
        write_all(conn, &room).map_err(|_| Failed)
    }

    #[test]
    fn gives_and_takes_back(rt: HostRuntime) -> Result<(), Memory> {
        let mut door = two(rt.alloc(), 1)?;
        assert!(rt; door.next().is_err());
        for _ in 0..2 {
            if let Ok(Some(mut conn)) = door.next() {
                assert_eq!(rt; greet(&mut conn), Ok(()));
                door.done(conn);
            }
        }
        assert!(rt; door.next().is_ok_and(|conn| conn.is_none()));
        assert!(rt; door.next().is_ok_and(|conn| conn.is_none()));
        assert_eq!(rt; (door.out, door.faults, door.ends), (0, 1, 2));
        assert_eq!(rt; door.finished().len(), 2);
        for (conn, byte) in door.finished().iter().zip([b'a', b'b']) {
            assert_eq!(rt; conn.sink().written(), [byte].as_slice());
        }
        Ok(())
    }

    #[test]
    fn each_next_failing(rt: HostRuntime) -> Result<(), Memory> {
        for call in [1, 2, 3] {
            let mut door = two(rt.alloc(), call)?;
            for made in [1, 2, 3] {
                assert_eq!(rt; door.next().is_err(), made == call);
            }
            assert_eq!(rt; (door.faults, door.ends), (1, 0));
        }
        Ok(())
    }
}

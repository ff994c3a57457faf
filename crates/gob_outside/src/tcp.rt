ghost use Rattle.std.specs.Prelude.{◌≡◌, ◌<◌, ◌≤◌, ◌-◌, length, take, None, IfOk, OnOk, OnErr, IfNone, OnSome};
ghost use Rattle.std.specs.Io.KnownBytes.{Appends, Consumes, IsAtEnd, Keeps};
ghost use Rattle.std.proofs.Common.{ap, refl, ◌∙◌};
ghost use Rattle.gob_outside.specs.Sink.{silent};
ghost use Rattle.gob_outside.specs.Count.{Rose, one_more};

use crate::connection::Connection;
use crate::door::Door;
use crate::failed::Failed;
use crate::sink::Sink;
use crate::source::Source;
use crate::streams::{TRIES, flush_counted, read_counted, write_counted};
use std::io::{ErrorKind, Read, Write};
use std::net::{Net, OpenListener, OpenStream, SocketAddr};

/// A stream of the network as a connection. It counts what failed and the ends of the input, and
/// tells nothing of the bytes. A peer that went away is an end of the input, or a failure.
#[derive(Drop)]
pub struct TcpConn<S> {
    stream: S,
    read_faults: u64,
    ends: u64,
    write_faults: u64,
}

impl<S: Read + Write> TcpConn<S> {
    /// A connection over the stream, of which no call failed yet.
    pub fn new(stream: S) -> TcpConn<S>
        ensures { result ≡ record { stream = stream; read_faults = 0; ends = 0; write_faults = 0 } }
    {
        TcpConn {
            stream,
            read_faults: 0,
            ends: 0,
            write_faults: 0,
        }
    }
}

impl<S: Read + Write> Source for TcpConn<S> {
    ghost left = { λ _. None };

    ghost read_faults = { λ conn. conn.read_faults };

    ghost ends = { λ conn. conn.ends };

    ghost read_step = { λ before after. after.write_faults ≡ before.write_faults };

    fn read(&mut self, into: &mut [u8]) -> Result<usize, Failed>
        ensures passed_on { IfOk result (λ n.
            Consumes (S.remaining self.old.stream) (S.remaining self.new.stream) (take n into.new)) }
        ensures at_end { IfOk result (λ n. n ≡ 0 → 0 < length into.old → IsAtEnd (S.remaining self.new.stream)) }
        ensures passed_nothing { OnErr result (Keeps (S.remaining self.old.stream) (S.remaining self.new.stream)) }
        ensures within { IfOk result (λ n. n ≤ length into.new) }
        ensures end { IfOk result (λ n. n ≡ 0 → 0 < length into.old → Rose self.old.ends self.new.ends) }
        ensures goes_on { IfOk result (λ n. 0 < n → self.new.ends ≡ self.old.ends) }
        ensures ends_never_fall { self.old.ends ≤ self.new.ends }
        ensures fine { OnOk result (self.new.read_faults ≡ self.old.read_faults) }
        ensures failed { OnErr result (Rose self.old.read_faults self.new.read_faults) }
        ensures never_falls { self.old.read_faults ≤ self.new.read_faults }
        ensures step { self.new.write_faults ≡ self.old.write_faults }
    {
        read_counted(
            &mut self.stream,
            into,
            &mut self.read_faults,
            &mut self.ends,
        )
    }

    ghost read_stays = { λ _. refl };

    ghost read_goes_on = { λ _ _ _ first second. second ∙ first };
}

impl<S: Read + Write> Sink for TcpConn<S> {
    ghost seen = { λ conn. silent conn.write_faults };

    ghost write_step = { λ before after. (after.read_faults ≡ before.read_faults) × (after.ends ≡ before.ends) };

    fn write(&mut self, piece: &[u8]) -> Result<usize, Failed>
        ensures passed_on { IfOk result (λ n.
            Appends (S.contents self.old.stream) (S.contents self.new.stream) (take n piece.now)) }
        ensures passed_nothing { OnErr result (Keeps (S.contents self.old.stream) (S.contents self.new.stream)) }
        ensures within { IfOk result (λ n. n ≤ length piece.now) }
        ensures moves { IfOk result (λ n. 0 < length piece.now → 0 < n) }
        ensures fine { OnOk result (self.new.write_faults ≡ self.old.write_faults) }
        ensures failed { OnErr result (Rose self.old.write_faults self.new.write_faults) }
        ensures never_falls { self.old.write_faults ≤ self.new.write_faults }
        ensures step { (self.new.read_faults ≡ self.old.read_faults) × (self.new.ends ≡ self.old.ends) }
    {
        write_counted(&mut self.stream, piece, &mut self.write_faults)
    }

    fn flush(&mut self) -> Result<(), Failed>
        ensures passed_nothing { Keeps (S.contents self.old.stream) (S.contents self.new.stream) }
        ensures fine { OnOk result (self.new.write_faults ≡ self.old.write_faults) }
        ensures failed { OnErr result (Rose self.old.write_faults self.new.write_faults) }
        ensures never_falls { self.old.write_faults ≤ self.new.write_faults }
        ensures step { (self.new.read_faults ≡ self.old.read_faults) × (self.new.ends ≡ self.old.ends) }
    {
        flush_counted(&mut self.stream, &mut self.write_faults)
    }

    ghost write_stays = { λ _. (refl, refl) };

    ghost write_goes_on = { λ _ _ _ first second. (second.0 ∙ first.0, second.1 ∙ first.1) };
}

impl<S: Read + Write> Connection for TcpConn<S> {
    ghost read_leaves = { λ _ _ step. ap silent step };

    ghost write_leaves = { λ _ _ step. (refl, step.1, step.0) };
}

/// A port of 127.0.0.1 as a door. It never gives `None`. It counts what failed, and tells nothing
/// of the connections.
#[derive(Drop)]
pub struct TcpDoor<L> {
    // none where the port couldn't be bound
    listener: Option<L>,
    out: u64,
    faults: u64,
}

impl<L: OpenListener> TcpDoor<L> {
    /// A door at this port. Where the port can't be bound, as one that is in use, each `next`
    /// fails.
    pub fn bind<R: Net<Listener = L>>(rt: &R, port: u16) -> TcpDoor<L>
        ensures out { result.out ≡ 0 }
        ensures faults { result.faults ≡ 0 }
    {
        TcpDoor {
            listener: rt.bind(SocketAddr::from(([127, 0, 0, 1], port))).ok(),
            out: 0,
            faults: 0,
        }
    }
}

impl<L: OpenListener> Door for TcpDoor<L>
where
    L::Stream: Read + Write + OpenStream + Send,
{
    type Conn = TcpConn<L::Stream>;

    ghost coming = { λ _. None };

    ghost finished = { λ _. None };

    ghost out = { λ door. door.out };

    ghost faults = { λ door. door.faults };

    ghost ends = { λ _. 0 };

    /// Waits for a peer; one that went away before it was taken is passed over, within a budget.
    /// Small messages are sent at once where the system allows it.
    fn next(&mut self) -> Result<Option<TcpConn<L::Stream>>, Failed>
        ensures never_ends { IfOk result (λ conn. IfNone conn ⊥) }
        ensures one_out { OnOk result (self.new.out ≡ one_more self.old.out) }
        ensures failed_out { OnErr result (self.new.out ≡ self.old.out) }
        ensures fine { OnOk result (self.new.faults ≡ self.old.faults) }
        ensures failed { OnErr result (Rose self.old.faults self.new.faults) }
        ensures never_falls { self.old.faults ≤ self.new.faults }
    {
        if let Some(listener) = &self.listener {
            if let Some(stream) = accept_some(listener) {
                // without it messages come late, and nothing else changes
                let _ = stream.set_nodelay(true);
                self.out = self.out.saturating_add(1);
                return Ok(Some(TcpConn::new(stream)));
            }
        }
        self.faults = self.faults.saturating_add(1);
        Err(Failed)
    }

    /// Closes the connection.
    fn done(&mut self, _conn: TcpConn<L::Stream>)
        requires { 0 < self.old.out }
        ensures { self.new ≡ record self.old { out = self.old.out - 1 } }
    {
        self.out -= 1;
    }
}

// The stream of the next peer. A call that fails because its peer went away is made again, within the
// budget that reads have.
fn accept_some<L: OpenListener>(listener: &L) -> Option<L::Stream> {
    for _ in 0..TRIES {
        match listener.accept() {
            Ok((stream, _)) => return Some(stream),
            Err(error) => match error.kind() {
                ErrorKind::ConnectionAborted | ErrorKind::ConnectionReset => {}
                _ => return None,
            },
        }
    }
    None
}

#[cfg(test)]
mod tests {
    use super::*;
    use crate::write::write_all;
    use std::cell::Cell;
    use std::io;
    use std::net::{IpAddr, TcpListener, TcpStream};

    const PIECE: usize = 16 * 1024;

    // A door at a free port.
    fn free_door(rt: &HostRuntime) -> (TcpDoor<TcpListener>, SocketAddr) {
        let door = TcpDoor::bind(rt, 0);
        let nowhere = SocketAddr::from(([127, 0, 0, 1], 0));
        let address = match &door.listener {
            Some(listener) => listener.local_addr().unwrap_or(nowhere),
            None => nowhere,
        };
        (door, address)
    }

    // Reads until the room is full.
    fn fill<S: Source>(source: &mut S, room: &mut [u8]) -> bool {
        let mut at = 0;
        for _ in 0..u64::MAX {
            if at >= room.len() {
                return true;
            }
            match source.read(&mut room[at..]) {
                Ok(count) if count > 0 => at += count,
                _ => return false,
            }
        }
        false
    }

    fn may_cross_threads<C: Send>(_it: &C) {}

    #[test]
    fn a_megabyte_both_ways(rt: HostRuntime) -> io::Result<()> {
        let (mut door, address) = free_door(&rt);
        let mut peer = TcpConn::new(rt.connect(address)?);
        let Ok(Some(mut conn)) = door.next() else {
            return Err(io::Error::from(io::ErrorKind::NotConnected));
        };
        assert_eq!(rt; address.ip(), IpAddr::from([127, 0, 0, 1]));
        may_cross_threads(&door);
        may_cross_threads(&conn);
        let mut room = [0; PIECE];
        for number in 0..64u8 {
            let sent = [number; PIECE];
            assert!(rt; write_all(&mut peer, &sent).is_ok());
            assert!(rt; fill(&mut conn, &mut room));
            assert!(rt; room == sent);
            assert!(rt; write_all(&mut conn, &room).is_ok());
            assert!(rt; fill(&mut peer, &mut room));
            assert!(rt; room == sent);
        }
        assert_eq!(rt; conn.flush(), Ok(()));
        assert!(rt; conn.stream.nodelay()?);
        door.done(conn);
        assert_eq!(rt; peer.read(&mut room), Ok(0));
        assert_eq!(rt;
            (peer.ends, peer.read_faults, door.out, door.faults),
            (1, 0, 0, 0)
        );
        Ok(())
    }

    #[test]
    fn a_peer_that_closes_in_the_middle(rt: HostRuntime) -> io::Result<()> {
        let (mut door, address) = free_door(&rt);
        let mut peer = TcpConn::new(rt.connect(address)?);
        let Ok(Some(mut conn)) = door.next() else {
            return Err(io::Error::from(io::ErrorKind::NotConnected));
        };
        assert!(rt; write_all(&mut peer, b"abc").is_ok());
        drop(peer);
        let mut room = [0; PIECE];
        assert!(rt; !fill(&mut conn, &mut room));
        assert_eq!(rt; &room[..3], b"abc".as_slice());
        assert_eq!(rt; (conn.ends, conn.read_faults), (1, 0));
        let mut failed = false;
        for _ in 0..64 {
            failed = failed || write_all(&mut conn, &room).is_err();
        }
        assert!(rt; failed);
        assert_eq!(rt; (conn.ends, conn.read_faults, conn.write_faults), (1, 0, 1));
        Ok(())
    }

    // The port that was free a moment ago is at 127.0.0.1.
    #[test]
    fn a_given_port(rt: HostRuntime) -> io::Result<()> {
        let (_, free) = free_door(&rt);
        let mut door: TcpDoor<TcpListener> = TcpDoor::bind(&rt, free.port());
        let here = SocketAddr::from(([127, 0, 0, 1], free.port()));
        let mut peer = TcpConn::new(rt.connect(here)?);
        let Ok(Some(mut conn)) = door.next() else {
            return Err(io::Error::from(io::ErrorKind::NotConnected));
        };
        assert!(rt; write_all(&mut peer, b"abc").is_ok());
        assert_eq!(rt; conn.read(&mut [0; 3]), Ok(3));
        Ok(())
    }

    #[test]
    fn a_port_in_use(rt: HostRuntime) {
        let (_door, address) = free_door(&rt);
        let mut second: TcpDoor<TcpListener> = TcpDoor::bind(&rt, address.port());
        assert!(rt; second.next().is_err());
        assert!(rt; second.next().is_err());
        assert_eq!(rt; (second.out, second.faults), (0, 2));
    }

    // A listener whose every call fails.
    #[derive(Drop)]
    struct Closed;

    impl OpenListener for Closed {
        type Stream = TcpStream;

        fn accept(&self) -> io::Result<(TcpStream, SocketAddr)> {
            Err(io::Error::from(io::ErrorKind::ConnectionAborted))
        }
    }

    #[test]
    fn a_listener_that_fails(rt: HostRuntime) {
        let mut door = TcpDoor {
            listener: Some(Closed),
            out: 0,
            faults: 0,
        };
        assert!(rt; door.next().is_err());
        assert_eq!(rt; (door.out, door.faults), (0, 1));
    }

    // A listener whose first peers went away again.
    #[derive(Drop)]
    struct Hasty {
        gone: Cell<u32>,
        inner: TcpListener,
    }

    impl OpenListener for Hasty {
        type Stream = TcpStream;

        fn accept(&self) -> io::Result<(TcpStream, SocketAddr)> {
            let gone = self.gone.get();
            if gone == 0 {
                return self.inner.accept();
            }
            self.gone.set(gone - 1);
            Err(io::Error::from(io::ErrorKind::ConnectionAborted))
        }
    }

    #[test]
    fn peers_that_went_away_are_passed_over(rt: HostRuntime) -> io::Result<()> {
        let inner = rt.bind(SocketAddr::from(([127, 0, 0, 1], 0)))?;
        let _peer = rt.connect(inner.local_addr()?)?;
        let mut door = TcpDoor {
            listener: Some(Hasty {
                gone: Cell::new(3),
                inner,
            }),
            out: 0,
            faults: 0,
        };
        assert!(rt; door.next().is_ok());
        assert_eq!(rt; (door.out, door.faults), (1, 0));
        Ok(())
    }
}

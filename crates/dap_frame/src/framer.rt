ghost use Rattle.std.specs.Prelude.{◌≡◌, ℕ, ◌+◌, ◌-◌, ◌<◌, ◌≢◌, ◌↔◌, ◌^◌, List, [], ◌∷◌, ◌++◌, Some, None, length, map, take, drop, IsTrue, IsSome, IfSome, IfNone, IfErr, OnOk, OnErr, IsErrOf, true};
ghost use Rattle.std.specs.VecDeque.{deque_len, deque_capacity};
ghost use Rattle.dap_frame.specs.Header.{IsBounded};
ghost use Rattle.dap_frame.specs.Stream.{End};
ghost use Rattle.dap_frame.specs.Part.{Stops};
ghost use Rattle.dap_frame.specs.Scan.{contents, places};
ghost use Rattle.dap_frame.specs.Framing.{end_of, fault_in, is_faulty, given, Reaches, Follows, IsAfter, StartsNext};

use crate::advance::{Progress, advance};
use crate::fault::FrameFault;
use crate::header::{Head, Header};
use crate::memory::Memory;
use crate::scan::{Placed, Scan};
use std::alloc::Global;
use std::collections::VecDeque;
use std::marker::Model;
use std::mem;

/// The messages of a stream whose bytes come in pieces.
///
/// A message is a header and a content. The header has lines that end with CR LF, the last of which
/// is empty; `Content-Length` gives the number of the content's bytes.
#[derive(Drop)]
pub struct Framer {
    alloc: Global,
    // The whole messages that were not taken yet.
    messages: VecDeque<Placed>,
    // Where the next one begins, its header as far as its lines are whole, and the bytes after these:
    // a line without its end, or the front of a content. A content has its whole room from the start.
    start: u64,
    header: Header,
    rest: Vec<u8>,
    // The number of bytes that were fed, up to a piece with a fault.
    fed: u64,
    // What ended the stream.
    fault: Option<FrameFault>,
}

impl Model for Framer {
    ghost use Rattle.dap_frame.specs.Framing.{Framing};

    ghost Value = { Framing };

    ghost use Rattle.dap_frame.specs.Scan.{contents, places};
    ghost use Rattle.dap_frame.specs.Framing.{IsPartBy};

    ghost view = { λ f. record { messages = contents f.messages.items; places = places f.messages.items; start = f.start; header = f.header; rest = f.rest.items; fed = f.fed; fault = f.fault } };

    ghost invariant = { λ f. IsPartBy f.fault f.header f.rest.items };
}

impl Framer {
    /// A framer that was fed nothing. It takes no memory.
    pub fn new(alloc: Global) -> Framer
        ensures { IsAfter result [] [] }
    {
        Framer {
            alloc,
            messages: VecDeque::new(alloc),
            start: 0,
            header: Header::Open(Head::new()),
            rest: Vec::new(alloc),
            fed: 0,
            fault: None,
        }
    }

    /// The bytes that the stream goes on with.
    ///
    /// `Ok` where the stream so far has no fault; else `BadHeader` or `TooLong`, the first one. The
    /// messages before it are held all the same. After a fault each call answers it again and
    /// changes nothing, and so does a call that answers `Memory`. What is said of places holds for
    /// streams shorter than 2^63 bytes.
    ///
    /// No byte is looked at more than a constant number of times, however the stream is cut.
    pub fn feed(&mut self, piece: &[u8]) -> Result<(), FrameFault>
        // What was fed, the piece included, is what the framer stands for.
        ensures read { result ≢ Err FrameFault.Memory → (stream : List ℕ) (taken : List (List ℕ)) →
            length stream + length piece.now < 2 ^ 63 → IsAfter self.old stream taken → IsAfter self.new (stream ++ piece.now) taken }

        // The fault, if the stream has one, is what the call answers.
        ensures ok { OnOk result (self.new.fault ≡ None) }
        ensures fault { IfErr result (λ f. f ≢ FrameFault.Memory → self.new.fault ≡ Some f) }

        ensures again { IfSome self.old.fault (λ f. (result ≡ Err f) × (self.new ≡ self.old)) }
        ensures memory { IsErrOf result FrameFault.Memory → self.new ≡ self.old }
    {
        if let Some(fault) = self.fault {
            return Err(fault);
        }
        self.read(piece)?;
        match self.fault {
            Some(fault) => Err(fault),
            None => Ok(()),
        }
    }

    /// The first of the whole messages that were not taken yet. It takes no memory.
    pub fn take(&mut self) -> Option<Vec<u8>>
        ensures first { self.old.messages ≡ given result ++ self.new.messages }
        ensures none { IfNone result (self.old.messages ≡ []) }
        ensures rest { self.new ≡ record self.old { messages = self.new.messages; places = self.new.places } }
        ensures after { (stream : List ℕ) (taken : List (List ℕ)) → IsAfter self.old stream taken → IsAfter self.new stream (taken ++ given result) }
    {
        let message = self.messages.pop_front()?;
        Some(message.content)
    }

    /// Where the content begins that `take` gives next: the number of the bytes of the stream before
    /// it. `None` exactly where no whole message is waiting. It takes no memory.
    pub fn next_start(&self) -> Option<u64>
        ensures none { IfNone result (self.now.messages ≡ []) }
        ensures some { IsSome result → self.now.messages ≢ [] }
        ensures place { IfSome result (λ place. (stream : List ℕ) (taken : List (List ℕ)) → length stream < 2 ^ 63 →
            IsAfter self.now stream taken → StartsNext stream taken self.now.messages place) }
    {
        let message = self.messages.front()?;
        Some(message.start)
    }

    /// Whether the stream so far ends at a message's end. A stream without a byte does.
    pub fn clean(&self) -> bool
        ensures { IsTrue result ↔ (end_of self.now ≡ End.whole) }
    {
        self.fault.is_none() && self.header.size() == 0 && self.rest.is_empty()
    }

    /// Reads a piece, where there was no fault before it.
    fn read(&mut self, piece: &[u8]) -> Result<(), Memory>
        requires { self.old.fault ≡ None }
        ensures ok { OnOk result (Follows self.old self.new piece.now) }
        ensures err { OnErr result (self.new ≡ self.old) }
    {
        let fed = self.fed.wrapping_add(piece.len() as u64);
        match advance(
            self.alloc,
            self.fed,
            self.header,
            self.rest.as_slice(),
            piece,
        )? {
            Progress::Grows => {
                self.rest.extend_from_slice(piece)?;
                self.fed = fed;
                Ok(())
            }
            Progress::Reads(scan) => self.take_up(scan, fed),
            Progress::Fills { missing, scan } => self.fill(&piece[..missing], scan, fed),
        }
    }

    /// Adds the messages of a scan, and goes on where it ended, with which `fed` bytes were fed.
    fn take_up(&mut self, scan: Scan, fed: u64) -> Result<(), Memory>
        requires stops { Stops scan.header scan.rest.items }
        requires bound { IsBounded scan.header }
        ensures ok { OnOk result (Reaches self.old self.new (contents scan.messages.items) (places scan.messages.items) fed scan) }
        ensures err { OnErr result (self.new ≡ self.old) }
    {
        let Scan {
            mut messages,
            start,
            header,
            rest,
        } = scan;
        self.messages.append(&mut messages)?;
        self.start = self.start.wrapping_add(start as u64);
        self.header = header;
        self.rest = rest;
        self.fed = fed;
        self.fault = fault_in(self.start, header);
        Ok(())
    }

    /// The same, where the bytes `front` end the content that was begun.
    fn fill(&mut self, front: &[u8], scan: Scan, fed: u64) -> Result<(), Memory>
        requires stops { Stops scan.header scan.rest.items }
        requires bound { IsBounded scan.header }
        ensures ok { OnOk result (Reaches self.old self.new ((self.old.rest ++ front.now) ∷ contents scan.messages.items)
            ((self.old.fed - length self.old.rest) ∷ places scan.messages.items) fed scan) }
        ensures err { OnErr result (self.new ≡ self.old) }
    {
        let Scan {
            messages,
            start,
            header,
            rest,
        } = scan;
        let place = self.fed.wrapping_sub(self.rest.len() as u64);
        // Room first, so that nothing fails once the content is complete.
        self.messages.reserve(messages.len() + 1)?;
        self.rest.extend_from_slice(front)?;
        let content = mem::replace(&mut self.rest, rest);
        let message = Placed {
            start: place,
            content,
        };
        push_all(&mut self.messages, message, messages);
        self.start = self.start.wrapping_add(start as u64);
        self.header = header;
        self.fed = fed;
        self.fault = fault_in(self.start, header);
        Ok(())
    }
}

/// The fault of a header that begins at the place `start`.
fn fault_in(start: u64, header: Header) -> Option<FrameFault>
    ensures told { start < 2 ^ 63 → result ≡ fault_in start header }
    ensures known { IsSome result ↔ (is_faulty header ≡ true) }
    ensures real { result ≢ Some FrameFault.Memory }
{
    match header {
        Header::Faulty(fault) => Some(fault.told(start)),
        Header::Open(_) | Header::Ended { .. } => None,
    }
}

/// Puts a message behind the others, and then more messages.
fn push_all(messages: &mut VecDeque<Placed>, message: Placed, more: VecDeque<Placed>)
    requires { deque_len messages.old + deque_len more < deque_capacity messages.old }
    ensures { messages.new.items ≡ messages.old.items ++ message ∷ more.items }
{
    let mut more = more;
    messages.push_back_reserved(message);
    match messages.append(&mut more) {
        Ok(()) => {}
        Err(_) => unreachable!(),
    }
}

ghost use Rattle.std.specs.Prelude.{◌≡◌, ◌≢◌, ℕ, ◌+◌, ◌-◌, ◌^◌, ◌<◌, ◌≤◌, List, Some, None, length, take, drop, ◌++◌};
ghost use Rattle.dap_frame.specs.Line.{line_of};
ghost use Rattle.dap_frame.specs.Header.{nothing_said, size_of, ended, judged};
ghost use Rattle.dap_frame.specs.Stream.{told};

use crate::fault::FrameFault;
use crate::line::{Line, line_of};

/// An empty line ends within this many bytes of a header.
pub const MAX_HEADER: usize = 4096;

/// The most bytes that a content has.
pub const MAX_CONTENT: u64 = 1_048_576;

/// A line that gives the length: its place in the header, and the number of the content's bytes.
#[derive(Clone, Copy, Debug, PartialEq, Eq)]
pub struct LengthLine {
    pub at: u32,
    pub n: u64,
}

/// What the lines of a header said so far: how many bytes they have, and the one that gives the
/// length.
#[derive(Clone, Copy, Debug, PartialEq, Eq)]
pub struct Head {
    pub size: usize,
    pub length: Option<LengthLine>,
}

/// What is wrong with a header, at a place that counts from the header's first byte.
#[derive(Clone, Copy, Debug, PartialEq, Eq)]
pub enum HeaderFault {
    Bad { at: u32 },
    TooLong { at: u32, n: u64 },
}

/// How far a header got.
#[derive(Clone, Copy, Debug, PartialEq, Eq)]
pub enum Header {
    /// Its empty line is still to come.
    Open(Head),
    /// It has `size` bytes, and a content of `n` bytes follows.
    Ended { size: usize, n: u64 },
    Faulty(HeaderFault),
}

impl HeaderFault {
    /// The fault, in a header that begins at the place `start` of the stream.
    pub fn told(self, start: u64) -> FrameFault
        ensures told { start < 2 ^ 63 → result ≡ told start self }
        ensures real { result ≢ FrameFault.Memory }
    {
        match self {
            HeaderFault::Bad { at } => FrameFault::BadHeader {
                at: start.wrapping_add(u64::from(at)),
            },
            HeaderFault::TooLong { at, n } => FrameFault::TooLong {
                at: start.wrapping_add(u64::from(at)),
                n,
            },
        }
    }
}

impl Head {
    /// The header before its first line.
    pub fn new() -> Head
        ensures { result ≡ nothing_said }
    {
        Head {
            size: 0,
            length: None,
        }
    }

    /// The header after one more line, of which the bytes before its LF are given.
    pub fn judged(self, line: &[u8]) -> Header
        requires { self.size + length line.now < MAX_HEADER }
        ensures { result ≡ judged self line.now }
    {
        let at = self.size as u32;
        let size = self.size + line.len() + 1;
        match (line_of(line), self.length) {
            (Line::Malformed, _) => Header::Faulty(HeaderFault::Bad { at }),
            (Line::Other, length) => Header::Open(Head { size, length }),
            (Line::Length(n), None) => Header::Open(Head {
                size,
                length: Some(LengthLine { at, n }),
            }),
            (Line::Length(_), Some(_)) => Header::Faulty(HeaderFault::Bad { at }),
            (Line::Empty, Some(given)) => ended(size, given.at, given.n),
            (Line::Empty, None) => Header::Faulty(HeaderFault::Bad { at }),
        }
    }
}

impl Header {
    /// The number of bytes of its lines so far, 0 where it is faulty.
    pub fn size(self) -> usize
        ensures { result ≡ size_of self }
    {
        match self {
            Header::Open(head) => head.size,
            Header::Ended { size, .. } => size,
            Header::Faulty(_) => 0,
        }
    }
}

/// The header at its empty line.
fn ended(size: usize, at: u32, n: u64) -> Header
    ensures { result ≡ ended size at n }
{
    if n <= MAX_CONTENT {
        Header::Ended { size, n }
    } else {
        Header::Faulty(HeaderFault::TooLong { at, n })
    }
}

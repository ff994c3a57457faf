ghost use Rattle.std.specs.Prelude.{◌+◌, ◌^◌, ◌<◌, ◌≤◌, length, drop, IfOk};
ghost use Rattle.dap_frame.specs.Header.{IsBounded};
ghost use Rattle.dap_frame.specs.Scan.{HasNoWholeLine, HasRead, IsPart, IsContentPart, IsScan};

use crate::bytes::place_of;
use crate::header::{Head, Header, HeaderFault, MAX_HEADER};
use crate::memory::Memory;
use std::alloc::Global;
use std::collections::VecDeque;

/// What bytes go on with.
#[derive(Drop)]
enum Part {
    /// A whole message of `size` bytes with its header, whose last one is the `used`-th byte.
    Message {
        content: Vec<u8>,
        size: usize,
        used: usize,
    },
    /// A fault, or the part of a message with the header as far as its lines are whole, and the
    /// bytes after these.
    Unfinished {
        header: Header,
        rest: Vec<u8>,
    },
}

/// The content of a whole message, and the place of its first byte in the stream.
#[derive(Drop)]
pub struct Placed {
    pub start: u64,
    pub content: Vec<u8>,
}

/// The messages that bytes end, and what they begin after these.
#[derive(Drop)]
pub struct Scan {
    pub messages: VecDeque<Placed>,
    /// The number of bytes of these messages with their headers.
    pub start: usize,
    /// The header of the message that comes next, as far as its lines are whole.
    pub header: Header,
    /// The bytes after these lines.
    pub rest: Vec<u8>,
}

/// Reads bytes that come after a header's whole lines, and after `origin` bytes of the stream. A byte
/// is looked at for the end of its line and when that line is judged, or it is copied once into its
/// content.
pub fn read_on(alloc: Global, origin: u64, header: Header, bytes: &[u8]) -> Result<Scan, Memory>
    requires { IsBounded header }
    ensures { IfOk result (IsScan origin header bytes.now) }
{
    let mut messages = VecDeque::new(alloc);
    let mut header = header;
    let mut start = 0;
    let mut at = 0;
    loop {
        match next_part(alloc, header, &bytes[at..])? {
            Part::Message {
                content,
                size,
                used,
            } => {
                let length = content.as_slice().len();
                let place = origin.wrapping_add((at + used - length) as u64);
                messages.push_back(Placed {
                    start: place,
                    content,
                })?;
                header = Header::Open(Head::new());
                start += size;
                at += used;
            }
            Part::Unfinished { header, rest } => {
                return Ok(Scan {
                    messages,
                    start,
                    header,
                    rest,
                });
            }
        }
    }
}

/// The next message, or what there is of it.
fn next_part(alloc: Global, header: Header, bytes: &[u8]) -> Result<Part, Memory>
    requires { IsBounded header }
    ensures { IfOk result (IsPart header bytes.now) }
{
    let (header, used) = read_lines(header, bytes);
    let rest = &bytes[used..];
    match header {
        Header::Ended { size, n } => content_part(alloc, size, n, used, rest),
        Header::Open(head) if head.size + rest.len() < MAX_HEADER => Ok(Part::Unfinished {
            header,
            rest: Vec::from_slice(alloc, rest)?,
        }),
        Header::Open(_) => Ok(Part::Unfinished {
            header: Header::Faulty(HeaderFault::Bad { at: 0 }),
            rest: Vec::new(alloc),
        }),
        Header::Faulty(_) => Ok(Part::Unfinished {
            header,
            rest: Vec::new(alloc),
        }),
    }
}

/// The header after the whole lines that the bytes begin with, and how many bytes these take.
fn read_lines(header: Header, bytes: &[u8]) -> (Header, usize)
    requires { IsBounded header }
    ensures read { HasRead header bytes.now result.0 result.1 }
    ensures rest { HasNoWholeLine result.0 (drop result.1 bytes.now) }
{
    let mut header = header;
    let mut at = 0;
    while let Header::Open(head) = header {
        let rest = &bytes[at..];
        let Some(end) = place_of(b'\n', &rest[..(MAX_HEADER - head.size).min(rest.len())]) else {
            break;
        };
        header = head.judged(&rest[..end]);
        at += end + 1;
    }
    (header, at)
}

/// The content of `n` bytes behind a header of `size` bytes, or what there is of it. `used` bytes
/// stand before these.
fn content_part(
    alloc: Global,
    size: usize,
    n: u64,
    used: usize,
    bytes: &[u8],
) -> Result<Part, Memory>
    requires size { size ≤ MAX_HEADER }
    requires used { used + length bytes.now < 2 ^ 63 }
    ensures { IfOk result (IsContentPart size n used bytes.now) }
{
    let len = n as usize;
    let mut content = Vec::with_capacity(alloc, len)?;
    if bytes.len() < len {
        content.extend_from_slice(bytes)?;
        return Ok(Part::Unfinished {
            header: Header::Ended { size, n },
            rest: content,
        });
    }
    content.extend_from_slice(&bytes[..len])?;
    Ok(Part::Message {
        content,
        size: size + len,
        used: used + len,
    })
}

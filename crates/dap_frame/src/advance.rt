ghost use Rattle.std.specs.Prelude.{◌+◌, ◌<◌, ◌≤◌, length, ◌++◌, IfOk};
ghost use Rattle.dap_frame.specs.Header.{IsBounded};
ghost use Rattle.dap_frame.specs.Part.{IsLinePart, IsUnfinished};
ghost use Rattle.dap_frame.specs.Advance.{IsProgress};

use crate::bytes::place_of;
use crate::header::{Head, Header, HeaderFault, MAX_HEADER};
use crate::memory::Memory;
use crate::scan::{Scan, read_on};
use std::alloc::Global;
use std::collections::VecDeque;

/// What a piece makes of a header, as far as its lines are whole, and the bytes after these.
#[derive(Drop)]
pub enum Progress {
    /// It ends no line and no content, and goes behind the bytes.
    Grows,
    /// It ends a line that the bytes begin, or a header.
    Reads(Scan),
    /// Its first `missing` bytes end the content that the bytes begin.
    Fills { missing: usize, scan: Scan },
}

/// What comes of the bytes `rest` after the header's lines with a piece behind them, which begins at
/// the place `origin` of the stream.
pub fn advance(
    alloc: Global,
    origin: u64,
    header: Header,
    rest: &[u8],
    piece: &[u8],
) -> Result<Progress, Memory>
    requires part { IsUnfinished header rest.now }
    requires bound { IsBounded header }
    ensures { IfOk result (IsProgress origin header rest.now piece.now) }
{
    match header {
        Header::Open(_) if rest.is_empty() => {
            Ok(Progress::Reads(read_on(alloc, origin, header, piece)?))
        }
        Header::Open(head) => advance_line(alloc, origin, head, rest, piece),
        Header::Ended { size, n } => advance_content(alloc, origin, size, n, rest, piece),
        Header::Faulty(_) => unreachable!(),
    }
}

/// The same of a line that `rest` begins.
fn advance_line(
    alloc: Global,
    origin: u64,
    head: Head,
    rest: &[u8],
    piece: &[u8],
) -> Result<Progress, Memory>
    requires { IsLinePart head rest.now }
    ensures { IfOk result (IsProgress origin (Header.Open head) rest.now piece.now) }
{
    let room = MAX_HEADER - head.size - rest.len();
    if let Some(end) = place_of(b'\n', &piece[..room.min(piece.len())]) {
        let mut line = Vec::from_slice(alloc, rest)?;
        line.extend_from_slice(&piece[..end])?;
        let header = head.judged(line.as_slice());
        let behind = origin.wrapping_add((end + 1) as u64);
        let scan = read_on(alloc, behind, header, &piece[end + 1..])?;
        return Ok(Progress::Reads(scan));
    }
    if piece.len() < room {
        return Ok(Progress::Grows);
    }
    Ok(Progress::Reads(Scan {
        messages: VecDeque::new(alloc),
        start: 0,
        header: Header::Faulty(HeaderFault::Bad { at: 0 }),
        rest: Vec::new(alloc),
    }))
}

/// The same of a content of `n` bytes that `rest` begins, behind a header of `size` bytes.
fn advance_content(
    alloc: Global,
    origin: u64,
    size: usize,
    n: u64,
    rest: &[u8],
    piece: &[u8],
) -> Result<Progress, Memory>
    requires part { length rest.now < n }
    requires bound { IsBounded (Header.Ended size n) }
    ensures { IfOk result (IsProgress origin (Header.Ended size n) rest.now piece.now) }
{
    let missing = n as usize - rest.len();
    if piece.len() < missing {
        return Ok(Progress::Grows);
    }
    let behind = origin.wrapping_add(missing as u64);
    let mut scan = read_on(alloc, behind, Header::Open(Head::new()), &piece[missing..])?;
    scan.start += size + n as usize;
    Ok(Progress::Fills { missing, scan })
}

//! Texts, and what the front says of them.

use c_check::{FrontKind, front};
use gob_tree::Memory;
use itoa::Buffer;
use std::alloc::Global;

/// Whether a text is refused with this kind at this place.
pub(crate) fn refuses(alloc: Global, text: &[u8], kind: FrontKind, line: u32, column: u32) -> bool {
    match front(alloc, text) {
        Ok(_) => false,
        Err(fault) => {
            fault.kind == kind && fault.place.line == line && fault.place.column == column
        }
    }
}

/// Whether a text has a source.
pub(crate) fn accepts(alloc: Global, text: &[u8]) -> bool {
    front(alloc, text).is_ok()
}

/// The same of a text that was put together, where there was memory for it.
pub(crate) fn refuses_made(
    alloc: Global,
    text: Result<Vec<u8>, Memory>,
    kind: FrontKind,
    line: u32,
    column: u32,
) -> bool {
    match text {
        Ok(text) => refuses(alloc, text.as_slice(), kind, line, column),
        Err(_) => false,
    }
}

/// The same of a text that was put together, where there was memory for it.
pub(crate) fn accepts_made(alloc: Global, text: Result<Vec<u8>, Memory>) -> bool {
    match text {
        Ok(text) => accepts(alloc, text.as_slice()),
        Err(_) => false,
    }
}

/// A text of a head, of so many pieces, and of a tail.
pub(crate) fn repeated(
    alloc: Global,
    head: &[u8],
    piece: &[u8],
    tail: &[u8],
    count: usize,
) -> Result<Vec<u8>, Memory> {
    let mut text = Vec::from_slice(alloc, head)?;
    for _i in 0..count {
        text.extend_from_slice(piece)?;
    }
    text.extend_from_slice(tail)?;
    Ok(text)
}

/// The same, with a number, counted from 0, in the midst of each piece.
pub(crate) fn numbered(
    alloc: Global,
    head: &[u8],
    piece: (&[u8], &[u8]),
    tail: &[u8],
    count: usize,
) -> Result<Vec<u8>, Memory> {
    let mut text = Vec::from_slice(alloc, head)?;
    let mut buffer = Buffer::new();
    for i in 0..count {
        text.extend_from_slice(piece.0)?;
        text.extend_from_slice(buffer.format(i).as_bytes())?;
        text.extend_from_slice(piece.1)?;
    }
    text.extend_from_slice(tail)?;
    Ok(text)
}

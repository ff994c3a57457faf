//! Bytes with the messages that they carry, worked out by hand.
use dap_frame::{FrameFault, Framer, frame};
use std::alloc::AllocError;
use std::test::Fail;

const REQUEST: &[u8] =
    b"Content-Length: 49\r\n\r\n{\"seq\":1,\"type\":\"request\",\"command\":\"disconnect\"}";

const CONTENT: &[u8] = b"{\"seq\":1,\"type\":\"request\",\"command\":\"disconnect\"}";

/// What a framer answers that is fed the bytes at once.
fn fed(rt: &HostRuntime, bytes: &[u8]) -> Result<(), FrameFault> {
    Framer::new(rt.alloc()).feed(bytes)
}

/// Whether the bytes at once are one message with the content `{}`.
fn is_read(rt: &HostRuntime, bytes: &[u8]) -> bool {
    let mut framer = Framer::new(rt.alloc());
    if framer.feed(bytes).is_err() || !framer.clean() {
        return false;
    }
    let first = framer.take();
    framer.take().is_none() && first.is_some_and(|content| content.as_slice() == b"{}".as_slice())
}

#[test]
fn a_request_in_any_two_pieces(rt: HostRuntime) -> Result<(), Fail> {
    for cut in 0..=REQUEST.len() {
        let mut framer = Framer::new(rt.alloc());
        assert!(rt; framer.clean());
        framer.feed(&REQUEST[..cut])?;
        framer.feed(&REQUEST[cut..])?;
        assert!(rt; framer.clean(), "cut at {cut}");
        assert!(rt;
            framer
                .take()
                .is_some_and(|content| content.as_slice() == CONTENT),
            "cut at {cut}"
        );
        assert!(rt; framer.take().is_none(), "cut at {cut}");
    }
    Ok(())
}

#[test]
fn a_request_byte_by_byte(rt: HostRuntime) -> Result<(), Fail> {
    let mut framer = Framer::new(rt.alloc());
    for i in 0..REQUEST.len() {
        framer.feed(&REQUEST[i..i + 1])?;
        assert_eq!(rt; framer.clean(), i + 1 == REQUEST.len(), "after byte {i}");
    }
    assert!(rt;
        framer
            .take()
            .is_some_and(|content| content.as_slice() == CONTENT)
    );
    assert!(rt; framer.take().is_none());
    Ok(())
}

#[test]
fn where_the_next_content_begins(rt: HostRuntime) -> Result<(), Fail> {
    let mut framer = Framer::new(rt.alloc());
    assert_eq!(rt; framer.next_start(), None);
    framer.feed(b"Content-Length: 2\r\n\r\n{}Content-Length: 1\r\nX")?;
    assert_eq!(rt; framer.next_start(), Some(21));
    framer.feed(b": y\r\n\r\n")?;
    framer.feed(b"{")?;
    assert!(rt; framer.take().is_some());
    assert_eq!(rt; framer.next_start(), Some(50));
    assert!(rt; framer.take().is_some());
    assert_eq!(rt; framer.next_start(), None);
    Ok(())
}

#[test]
fn ten_bytes_are_inside_a_message(rt: HostRuntime) -> Result<(), Fail> {
    let mut framer = Framer::new(rt.alloc());
    framer.feed(&REQUEST[..10])?;
    assert!(rt; !framer.clean());
    assert!(rt; framer.take().is_none());
    Ok(())
}

#[test]
fn headers_that_are_read(rt: HostRuntime) {
    let messages: [&[u8]; 6] = [
        b"content-length: 2\r\n\r\n{}",
        b"CONTENT-LENGTH:\t 2 \t\r\n\r\n{}",
        b"Content-Length:2\r\n\r\n{}",
        b"Content-Length: 0000000002\r\n\r\n{}",
        b"Content-Type: a:b\r\nContent-Length: 2\r\n\r\n{}",
        b"Content-Length: 2\r\nX:\r\n\r\n{}",
    ];
    for (i, message) in messages.iter().enumerate() {
        assert!(rt; is_read(&rt, message), "message {i}");
    }
}

#[test]
fn lines_at_fault(rt: HostRuntime) {
    let second_lines: [&[u8]; 12] = [
        b"Content-Length: 2\n",
        b"Content-Length 2\r\n",
        b"Content-Length: 00000000002\r\n",
        b"Content-Length:\t\r\n",
        b"Content-Length: 2 2\r\n",
        b"Content-Length: -2\r\n",
        b": 2\r\n",
        b"A b: 2\r\n",
        b"A\x7f: 2\r\n",
        b"A: b\rc\r\n",
        b"\r\n",
        b"\n",
    ];
    for (i, line) in second_lines.iter().enumerate() {
        let mut framer = Framer::new(rt.alloc());
        assert!(rt; framer.feed(b"X: y\r\n").is_ok());
        assert_eq!(rt;
            framer.feed(line),
            Err(FrameFault::BadHeader { at: 6 }),
            "line {i}"
        );
    }
}

#[test]
fn a_second_length_is_a_fault_at_its_line(rt: HostRuntime) {
    let twice = fed(&rt, b"Content-Length: 49\r\nContent-Length: 49\r\n");
    assert_eq!(rt; twice, Err(FrameFault::BadHeader { at: 20 }));
}

#[test]
fn the_longest_content(rt: HostRuntime) -> Result<(), Fail> {
    let mut framer = Framer::new(rt.alloc());
    framer.feed(b"Content-Length: 1048576\r\n\r\n")?;
    let content = vec![in rt.alloc(); 7; 1_048_576]?;
    framer.feed(content.as_slice())?;
    assert!(rt; framer.clean());
    assert!(rt;
        framer
            .take()
            .is_some_and(|taken| taken.as_slice() == content.as_slice())
    );
    Ok(())
}

#[test]
fn a_longer_content(rt: HostRuntime) -> Result<(), Fail> {
    let mut framer = Framer::new(rt.alloc());
    framer.feed(b"X: y\r\nContent-Length: 1048577\r\nX: y\r\n")?;
    let n = 1_048_577;
    assert_eq!(rt; framer.feed(b"\r\n"), Err(FrameFault::TooLong { at: 6, n }));
    Ok(())
}

#[test]
fn a_longer_content_after_a_message(rt: HostRuntime) -> Result<(), Fail> {
    let mut framer = Framer::new(rt.alloc());
    framer.feed(REQUEST)?;
    let fault = framer.feed(b"Content-Length: 1048577\r\n\r\n");
    let n = 1_048_577;
    assert_eq!(rt; fault, Err(FrameFault::TooLong { at: 71, n }));
    Ok(())
}

#[test]
fn a_header_without_an_empty_line(rt: HostRuntime) -> Result<(), Fail> {
    let mut framer = Framer::new(rt.alloc());
    framer.feed(REQUEST)?;
    framer.feed(b"X: y\r\n")?;
    let line = vec![in rt.alloc(); b'a'; 4089]?;
    framer.feed(line.as_slice())?;
    let fault = Err(FrameFault::BadHeader { at: 71 });
    assert_eq!(rt; framer.feed(b"a"), fault);
    assert_eq!(rt; framer.feed(REQUEST), fault);
    assert!(rt; !framer.clean());
    assert!(rt;
        framer
            .take()
            .is_some_and(|content| content.as_slice() == CONTENT)
    );
    assert!(rt; framer.take().is_none());
    Ok(())
}

/// A header with a line that has `n` further bytes, and its content.
fn long_header(rt: &HostRuntime, n: usize) -> Result<Vec<u8>, AllocError> {
    let mut bytes = Vec::from_slice(rt.alloc(), b"Content-Length: 2\r\nX:")?;
    bytes.extend_from_slice(vec![in rt.alloc(); b'y'; n]?.as_slice())?;
    bytes.extend_from_slice(b"\r\n\r\n{}")?;
    Ok(bytes)
}

#[test]
fn the_longest_header(rt: HostRuntime) -> Result<(), Fail> {
    assert!(rt; is_read(&rt, long_header(&rt, 4071)?.as_slice()));
    let longer = fed(&rt, long_header(&rt, 4072)?.as_slice());
    assert_eq!(rt; longer, Err(FrameFault::BadHeader { at: 0 }));
    Ok(())
}

#[test]
fn a_fault_in_a_long_header(rt: HostRuntime) -> Result<(), Fail> {
    let mut bytes = Vec::from_slice(rt.alloc(), b"X: y\r\nbad\r\n")?;
    bytes.extend_from_slice(vec![in rt.alloc(); b'a'; 4096]?.as_slice())?;
    assert_eq!(rt;
        fed(&rt, bytes.as_slice()),
        Err(FrameFault::BadHeader { at: 6 })
    );
    Ok(())
}

#[test]
fn a_frame(rt: HostRuntime) -> Result<(), Fail> {
    assert_eq!(rt; frame(rt.alloc(), CONTENT)?.as_slice(), REQUEST);
    assert_eq!(rt;
        frame(rt.alloc(), b"")?.as_slice(),
        b"Content-Length: 0\r\n\r\n".as_slice()
    );
    Ok(())
}

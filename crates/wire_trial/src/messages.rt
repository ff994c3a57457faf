//! Messages with their bytes, worked out by hand.
ghost use Rattle.dap_wire.specs.MessageTexts.{IsMessageText};

use crate::texts::text;
use dap_wire::{BreakInfo, EventBody, Message, write_message};
use std::test::Fail;

/// Whether a message is written as these bytes.
fn is_written(rt: &HostRuntime, message: &Message, bytes: &str) -> bool
    requires { IsMessageText message.now }
{
    write_message(rt.alloc(), message).is_ok_and(|written| written.as_slice() == bytes.as_bytes())
}

/// A name has quotes, a backslash, control characters, one of them without a short form, and
/// characters beyond ASCII.
#[test]
fn a_refused_name_with_escapes(rt: HostRuntime) -> Result<(), Fail> {
    let refusal = Message::Refusal {
        seq: 1,
        request_seq: 2147483647,
        command: text(&rt, "a\"b\\c/\t\n\r\u{8}\u{c}\u{1}\u{7f}\u{e9}")?,
        message: text(&rt, "unknownCommand")?,
    };
    assert!(rt;
        is_written(
            &rt,
            &refusal,
            "{\"command\":\"a\\\"b\\\\c/\\t\\n\\r\\b\\f\\u0001\u{7f}\u{e9}\",\"message\":\"unknownCommand\",\"request_seq\":2147483647,\"seq\":1,\"success\":false,\"type\":\"response\"}"
        )
    );
    Ok(())
}

#[test]
fn an_unverified_breakpoint_changed(rt: HostRuntime) -> Result<(), Fail> {
    let changed = Message::Event {
        seq: 7,
        body: EventBody::Breakpoint(BreakInfo {
            id: 1,
            line: 2,
            message: Some(text(&rt, "noNode")?),
        }),
    };
    assert!(rt;
        is_written(
            &rt,
            &changed,
            "{\"body\":{\"breakpoint\":{\"id\":1,\"line\":2,\"message\":\"noNode\",\"verified\":false},\"reason\":\"changed\"},\"event\":\"breakpoint\",\"seq\":7,\"type\":\"event\"}"
        )
    );
    Ok(())
}

#[test]
fn the_greatest_numbers(rt: HostRuntime) {
    let greatest = Message::Event {
        seq: u64::MAX,
        body: EventBody::Breakpoint(BreakInfo {
            id: u64::MAX,
            line: u32::MAX,
            message: None,
        }),
    };
    assert!(rt;
        is_written(
            &rt,
            &greatest,
            "{\"body\":{\"breakpoint\":{\"id\":18446744073709551615,\"line\":4294967295,\"verified\":true},\"reason\":\"changed\"},\"event\":\"breakpoint\",\"seq\":18446744073709551615,\"type\":\"event\"}"
        )
    );
}

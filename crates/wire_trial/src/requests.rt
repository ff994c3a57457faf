//! Contents with their requests, worked out by hand.

use dap_wire::read_request;
use std::alloc::AllocError;
use std::test::Fail;

/// Whether a content is read as what `{:?}` shows so.
fn is_read(rt: &HostRuntime, content: &str, shown: &str) -> Result<bool, AllocError> {
    let read = read_request(rt.alloc(), content.as_bytes());
    let text = format!(in rt.alloc(); "{read:?}")?;
    Ok(text.as_str() == shown)
}

#[test]
fn a_key_that_stands_twice(rt: HostRuntime) -> Result<(), Fail> {
    let cases = [
        (
            "{\"seq\":1,\"type\":\"event\",\"command\":\"pause\",\"command\":\"threads\",\"type\":\"request\",\"seq\":2}",
            "Ok(Ask { seq: 2, command: Threads })",
        ),
        (
            "{\"seq\":1,\"type\":\"request\",\"command\":\"threads\",\"seq\":0}",
            "Err(NotARequest)",
        ),
        (
            "{\"seq\":1,\"type\":\"request\",\"command\":\"scopes\",\"arguments\":{\"frameId\":1},\"arguments\":{\"frameId\":null,\"frameId\":4}}",
            "Ok(Ask { seq: 1, command: Scopes { frame: 4 } })",
        ),
        (
            "{\"seq\":1,\"type\":\"request\",\"command\":\"next\",\"arguments\":{\"threadId\":1},\"arguments\":{}}",
            "Err(BadArguments { seq: 1, command: Text { bytes: [110, 101, 120, 116] }, field: Text { bytes: [116, 104, 114, 101, 97, 100, 73, 100] } })",
        ),
    ];
    for (content, shown) in cases {
        assert!(rt; is_read(&rt, content, shown)?, "{content}");
    }
    Ok(())
}

/// So many arrays, one in another.
fn nested(rt: &HostRuntime, depth: usize) -> Result<String, AllocError> {
    let mut text = String::new(rt.alloc());
    for _ in 0..depth {
        text.push_str("[")?;
    }
    for _ in 0..depth {
        text.push_str("]")?;
    }
    Ok(text)
}

/// A request for threads with these arguments.
fn threads(rt: &HostRuntime, arguments: &str) -> Result<String, AllocError> {
    format!(in rt.alloc();
        "{{\"seq\":3,\"type\":\"request\",\"command\":\"threads\",\"arguments\":{arguments}}}"
    )
}

/// A request is an object, which is a level of its own.
#[test]
fn the_deepest_nesting(rt: HostRuntime) -> Result<(), Fail> {
    let deepest = threads(&rt, nested(&rt, 126)?.as_str())?;
    assert!(rt;
        is_read(
            &rt,
            deepest.as_str(),
            "Ok(Ask { seq: 3, command: Threads })"
        )?
    );
    let deeper = threads(&rt, nested(&rt, 127)?.as_str())?;
    assert!(rt; is_read(&rt, deeper.as_str(), "Err(NotJson)")?);
    Ok(())
}

ghost use Rattle.dap_wire.specs.MessageTexts.{IsBodyText, IsEventText, IsMessageText};

use crate::texts::text;
use dap_wire::{
    BreakInfo, EventBody, FrameInfo, Judgement, Message, Reason, ReplyBody, ThreadInfo,
    VariableInfo, write_message,
};
use gob_tree::Seq;
use std::test::Fail;

/// Whether a message is written as these bytes.
fn is_written(rt: &HostRuntime, message: &Message, bytes: &str) -> bool
    requires { IsMessageText message.now }
{
    write_message(rt.alloc(), message).is_ok_and(|written| written.as_slice() == bytes.as_bytes())
}

/// Whether a response, its own number being seven and that of its request five, has this body.
fn is_body(rt: &HostRuntime, body: ReplyBody, bytes: &str) -> Result<bool, Fail>
    requires { IsBodyText body }
{
    let command = text(rt, "c")?;
    let whole = format!(in rt.alloc();
        "{{\"body\":{bytes},\"command\":\"c\",\"request_seq\":5,\"seq\":7,\"success\":true,\"type\":\"response\"}}"
    )?;
    let message = Message::Response {
        seq: 7,
        request_seq: 5,
        command,
        body,
    };
    Ok(is_written(rt, &message, whole.as_str()))
}

/// Whether an event 7 is written as these bytes.
fn is_event(rt: &HostRuntime, body: EventBody, bytes: &str) -> bool
    requires { IsEventText body }
{
    is_written(rt, &Message::Event { seq: 7, body }, bytes)
}

#[test]
fn responses_without_a_body(rt: HostRuntime) -> Result<(), Fail> {
    let done = Message::Response {
        seq: 1,
        request_seq: 1,
        command: text(&rt, "disconnect")?,
        body: ReplyBody::Empty,
    };
    assert!(rt;
        is_written(
            &rt,
            &done,
            "{\"command\":\"disconnect\",\"request_seq\":1,\"seq\":1,\"success\":true,\"type\":\"response\"}"
        )
    );
    let refused = Message::Refusal {
        seq: 1,
        request_seq: 5,
        command: text(&rt, "next")?,
        message: text(&rt, "badArguments threadId")?,
    };
    assert!(rt;
        is_written(
            &rt,
            &refused,
            "{\"command\":\"next\",\"message\":\"badArguments threadId\",\"request_seq\":5,\"seq\":1,\"success\":false,\"type\":\"response\"}"
        )
    );
    Ok(())
}

#[test]
fn bodies_without_a_list(rt: HostRuntime) -> Result<(), Fail> {
    assert!(rt;
        is_body(
            &rt,
            ReplyBody::Capabilities,
            "{\"supportsConditionalBreakpoints\":true,\"supportsConfigurationDoneRequest\":true,\"supportsRestartRequest\":true,\"supportsStepBack\":true,\"supportsStepInTargetsRequest\":true,\"supportsSteppingGranularity\":true}"
        )?
    );
    let scopes = ReplyBody::Scopes {
        locals: 2,
        globals: 3,
    };
    assert!(rt;
        is_body(
            &rt,
            scopes,
            "{\"scopes\":[{\"expensive\":false,\"name\":\"Locals\",\"variablesReference\":2},{\"expensive\":false,\"name\":\"Globals\",\"variablesReference\":3}]}"
        )?
    );
    assert!(rt;
        is_body(
            &rt,
            ReplyBody::Result(text(&rt, "[1,1]")?),
            "{\"result\":\"[1,1]\",\"variablesReference\":0}"
        )?
    );
    assert!(rt; is_body(&rt, ReplyBody::Continued, "{\"allThreadsContinued\":true}")?);
    assert!(rt; is_body(&rt, ReplyBody::Edit(4096), "{\"edit\":4096}")?);
    assert!(rt;
        is_body(
            &rt,
            ReplyBody::Judged(Judgement::Published),
            "{\"verdict\":\"published\"}"
        )?
    );
    assert!(rt;
        is_body(
            &rt,
            ReplyBody::Judged(Judgement::Budget),
            "{\"verdict\":\"budget\"}"
        )?
    );
    assert!(rt;
        is_body(
            &rt,
            ReplyBody::Judged(Judgement::Memory),
            "{\"verdict\":\"memory\"}"
        )?
    );
    let status = ReplyBody::Status {
        edits: 2,
        pinned: 0,
        published: 1,
    };
    assert!(rt; is_body(&rt, status, "{\"edits\":2,\"pinned\":0,\"published\":1}")?);
    Ok(())
}

#[test]
fn bodies_with_a_list(rt: HostRuntime) -> Result<(), Fail> {
    let mut breakpoints = Seq::new(rt.alloc());
    breakpoints.push(BreakInfo {
        id: 1,
        line: 2,
        message: None,
    })?;
    breakpoints.push(BreakInfo {
        id: 2,
        line: 9,
        message: Some(text(&rt, "noNode")?),
    })?;
    assert!(rt;
        is_body(
            &rt,
            ReplyBody::Breakpoints(breakpoints),
            "{\"breakpoints\":[{\"id\":1,\"line\":2,\"verified\":true},{\"id\":2,\"line\":9,\"message\":\"noNode\",\"verified\":false}]}"
        )?
    );
    let mut threads = Seq::new(rt.alloc());
    threads.push(ThreadInfo {
        id: 1,
        name: text(&rt, "f(0){}")?,
    })?;
    threads.push(ThreadInfo {
        id: 2,
        name: text(&rt, "f(Any){}")?,
    })?;
    assert!(rt;
        is_body(
            &rt,
            ReplyBody::Threads(threads),
            "{\"threads\":[{\"id\":1,\"name\":\"f(0){}\"},{\"id\":2,\"name\":\"f(Any){}\"}]}"
        )?
    );
    let mut targets = Seq::new(rt.alloc());
    targets.push(text(&rt, "x")?)?;
    targets.push(text(&rt, "!(x)")?)?;
    assert!(rt;
        is_body(
            &rt,
            ReplyBody::Targets(targets),
            "{\"targets\":[{\"id\":1,\"label\":\"x\"},{\"id\":2,\"label\":\"!(x)\"}]}"
        )?
    );
    let mut variables = Seq::new(rt.alloc());
    variables.push(VariableInfo {
        name: text(&rt, "x")?,
        value: text(&rt, "[0,2]")?,
    })?;
    assert!(rt;
        is_body(
            &rt,
            ReplyBody::Variables(variables),
            "{\"variables\":[{\"name\":\"x\",\"value\":\"[0,2]\",\"variablesReference\":0}]}"
        )?
    );
    Ok(())
}

#[test]
fn frames(rt: HostRuntime) -> Result<(), Fail> {
    let mut frames = Seq::new(rt.alloc());
    let (name, file) = (text(&rt, "f(Any){}")?, text(&rt, "demo.c")?);
    frames.push(FrameInfo {
        id: 3,
        line: 2,
        column: 3,
        name,
        file,
    })?;
    let body = ReplyBody::Frames { frames, total: 2 };
    assert!(rt;
        is_body(
            &rt,
            body,
            "{\"stackFrames\":[{\"column\":3,\"id\":3,\"line\":2,\"name\":\"f(Any){}\",\"source\":{\"name\":\"demo.c\",\"path\":\"demo.c\"}}],\"totalFrames\":2}"
        )?
    );
    Ok(())
}

#[test]
fn events(rt: HostRuntime) {
    assert!(rt;
        is_event(
            &rt,
            EventBody::Initialized,
            "{\"event\":\"initialized\",\"seq\":7,\"type\":\"event\"}"
        )
    );
    assert!(rt;
        is_event(
            &rt,
            EventBody::Terminated,
            "{\"event\":\"terminated\",\"seq\":7,\"type\":\"event\"}"
        )
    );
    let entry = EventBody::Stopped {
        reason: Reason::Entry,
        thread: 1,
    };
    assert!(rt;
        is_event(
            &rt,
            entry,
            "{\"body\":{\"allThreadsStopped\":true,\"reason\":\"entry\",\"threadId\":1},\"event\":\"stopped\",\"seq\":7,\"type\":\"event\"}"
        )
    );
    let step = EventBody::Stopped {
        reason: Reason::Step,
        thread: 1,
    };
    assert!(rt;
        is_event(
            &rt,
            step,
            "{\"body\":{\"allThreadsStopped\":true,\"reason\":\"step\",\"threadId\":1},\"event\":\"stopped\",\"seq\":7,\"type\":\"event\"}"
        )
    );
    let stop = EventBody::Stopped {
        reason: Reason::Breakpoint,
        thread: 2,
    };
    assert!(rt;
        is_event(
            &rt,
            stop,
            "{\"body\":{\"allThreadsStopped\":true,\"reason\":\"breakpoint\",\"threadId\":2},\"event\":\"stopped\",\"seq\":7,\"type\":\"event\"}"
        )
    );
    let changed = EventBody::Breakpoint(BreakInfo {
        id: 1,
        line: 2,
        message: None,
    });
    assert!(rt;
        is_event(
            &rt,
            changed,
            "{\"body\":{\"breakpoint\":{\"id\":1,\"line\":2,\"verified\":true},\"reason\":\"changed\"},\"event\":\"breakpoint\",\"seq\":7,\"type\":\"event\"}"
        )
    );
}

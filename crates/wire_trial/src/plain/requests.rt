use dap_wire::{WireFault, read_request};
use std::alloc::AllocError;
use std::test::Fail;

/// The content of a request, numbered three, for a command with these arguments.
fn content(rt: &HostRuntime, command: &str, arguments: &str) -> Result<String, AllocError> {
    format!(in rt.alloc();
        "{{\"seq\":3,\"type\":\"request\",\"command\":\"{command}\",\"arguments\":{arguments}}}"
    )
}

/// Whether a content is read as what `{:?}` shows so.
fn is_read(rt: &HostRuntime, content: &str, shown: &str) -> Result<bool, AllocError> {
    let read = read_request(rt.alloc(), content.as_bytes());
    let text = format!(in rt.alloc(); "{read:?}")?;
    Ok(text.as_str() == shown)
}

/// Whether the arguments of a command are refused with this field.
fn is_bad(
    rt: &HostRuntime,
    command: &str,
    arguments: &str,
    field: &str,
) -> Result<bool, AllocError> {
    let content = content(rt, command, arguments)?;
    match read_request(rt.alloc(), content.as_bytes()) {
        Err(
            WireFault::BadArguments {
                seq,
                command: named,
                field: told,
            },
        ) => Ok(
            seq == 3
                && named.as_bytes() == command.as_bytes()
                && told.as_bytes() == field.as_bytes(),
        ),
        _ => Ok(false),
    }
}

#[test]
fn requests_of_editors(rt: HostRuntime) -> Result<(), Fail> {
    let cases = [
        (
            "{\"command\":\"initialize\",\"arguments\":{\"clientID\":\"vscode\",\"clientName\":\"Visual Studio Code\",\"adapterID\":\"gobpie\",\"pathFormat\":\"path\",\"linesStartAt1\":true,\"columnsStartAt1\":true,\"supportsVariableType\":true,\"locale\":\"en\"},\"type\":\"request\",\"seq\":1}",
            "Ok(Ask { seq: 1, command: Initialize })",
        ),
        (
            "{\"command\":\"launch\",\"arguments\":{\"name\":\"demo\",\"type\":\"gobpie\",\"request\":\"launch\",\"program\":\"demo.c\",\"stopOnEntry\":false,\"noDebug\":false},\"type\":\"request\",\"seq\":2}",
            "Ok(Ask { seq: 2, command: Launch { stop_on_entry: false } })",
        ),
        (
            "{\n    \"seq\": 153,\n    \"type\": \"request\",\n    \"command\": \"next\",\n    \"arguments\": {\n        \"threadId\": 3\n    }\n}",
            "Ok(Ask { seq: 153, command: Next { thread: 3, granularity: Statement } })",
        ),
        (
            "{\"command\":\"setBreakpoints\",\"arguments\":{\"source\":{\"name\":\"demo.c\",\"path\":\"/home/a/demo.c\"},\"lines\":[4,6],\"breakpoints\":[{\"line\":4,\"column\":1},{\"line\":6,\"condition\":\"n\"}],\"sourceModified\":false},\"type\":\"request\",\"seq\":3}",
            "Ok(Ask { seq: 3, command: SetBreakpoints { breakpoints: Seq { items: [BreakAsk { line: 4, condition: None }, BreakAsk { line: 6, condition: Some(Text { bytes: [110] }) }] } } })",
        ),
        (
            "{\"command\":\"stackTrace\",\"arguments\":{\"threadId\":1,\"startFrame\":0,\"levels\":20},\"type\":\"request\",\"seq\":7}",
            "Ok(Ask { seq: 7, command: StackTrace { thread: 1, start: 0, levels: 20 } })",
        ),
        (
            "{\"command\":\"evaluate\",\"arguments\":{\"expression\":\"x\",\"frameId\":1,\"context\":\"hover\"},\"type\":\"request\",\"seq\":8}",
            "Ok(Ask { seq: 8, command: Evaluate { expression: Text { bytes: [120] }, frame: Some(1) } })",
        ),
        (
            "{\"command\":\"disconnect\",\"arguments\":{\"restart\":false,\"terminateDebuggee\":true},\"type\":\"request\",\"seq\":9}",
            "Ok(Ask { seq: 9, command: Disconnect })",
        ),
    ];
    for (content, shown) in cases {
        assert!(rt; is_read(&rt, content, shown)?, "{shown}");
    }
    Ok(())
}

#[test]
fn every_command(rt: HostRuntime) -> Result<(), Fail> {
    let cases = [
        ("initialize", "null", "Initialize"),
        ("launch", "[]", "Launch { stop_on_entry: true }"),
        (
            "setBreakpoints",
            "{}",
            "SetBreakpoints { breakpoints: Seq { items: [] } }",
        ),
        (
            "setExceptionBreakpoints",
            "{\"filters\":[]}",
            "SetExceptionBreakpoints",
        ),
        ("configurationDone", "{}", "ConfigurationDone"),
        ("threads", "{}", "Threads"),
        (
            "stackTrace",
            "{\"threadId\":2}",
            "StackTrace { thread: 2, start: 0, levels: 0 }",
        ),
        ("scopes", "{\"frameId\":0}", "Scopes { frame: 0 }"),
        (
            "variables",
            "{\"variablesReference\":2147483647}",
            "Variables { reference: 2147483647 }",
        ),
        (
            "evaluate",
            "{\"expression\":\"\\u00e9\"}",
            "Evaluate { expression: Text { bytes: [195, 169] }, frame: None }",
        ),
        (
            "next",
            "{\"threadId\":1,\"granularity\":\"line\"}",
            "Next { thread: 1, granularity: Statement }",
        ),
        (
            "stepIn",
            "{\"threadId\":1,\"targetId\":2}",
            "StepIn { thread: 1, target: Some(2), granularity: Statement }",
        ),
        (
            "stepInTargets",
            "{\"frameId\":1}",
            "StepInTargets { frame: 1 }",
        ),
        (
            "stepOut",
            "{\"threadId\":1,\"granularity\":\"instruction\"}",
            "StepOut { thread: 1, granularity: Instruction }",
        ),
        (
            "stepBack",
            "{\"threadId\":1,\"granularity\":\"statement\"}",
            "StepBack { thread: 1, granularity: Statement }",
        ),
        (
            "continue",
            "{\"threadId\":1,\"threadId\":4}",
            "Continue { thread: 4 }",
        ),
        ("restart", "{}", "Restart"),
        ("disconnect", "7", "Disconnect"),
        (
            "gobpie/edit",
            "{\"text\":\"a\\n\"}",
            "Edit { text: Text { bytes: [97, 10] } }",
        ),
        ("gobpie/await", "{\"edit\":1}", "Await { edit: 1 }"),
        ("gobpie/status", "{}", "Status"),
    ];
    for (command, arguments, shown) in cases {
        let content = content(&rt, command, arguments)?;
        let whole = format!(in rt.alloc(); "Ok(Ask {{ seq: 3, command: {shown} }})")?;
        assert!(rt; is_read(&rt, content.as_str(), whole.as_str())?, "{shown}");
    }
    Ok(())
}

#[test]
fn no_requests(rt: HostRuntime) -> Result<(), Fail> {
    let cases = [
        ("", "Err(NotJson)"),
        ("{", "Err(NotJson)"),
        ("{} {}", "Err(NotJson)"),
        ("{}", "Err(NotARequest)"),
        ("[]", "Err(NotARequest)"),
        (
            "{\"seq\":0,\"type\":\"request\",\"command\":\"threads\"}",
            "Err(NotARequest)",
        ),
        (
            "{\"seq\":2147483648,\"type\":\"request\",\"command\":\"threads\"}",
            "Err(NotARequest)",
        ),
        (
            "{\"seq\":1.0,\"type\":\"request\",\"command\":\"threads\"}",
            "Err(NotARequest)",
        ),
        (
            "{\"seq\":\"1\",\"type\":\"request\",\"command\":\"threads\"}",
            "Err(NotARequest)",
        ),
        (
            "{\"seq\":1,\"type\":\"response\",\"command\":\"threads\"}",
            "Err(NotARequest)",
        ),
        (
            "{\"seq\":1,\"type\":\"request\",\"command\":7}",
            "Err(NotARequest)",
        ),
        ("{\"seq\":1,\"type\":\"request\"}", "Err(NotARequest)"),
        (
            "{\"seq\":1,\"type\":\"request\",\"command\":\"pause\"}",
            "Err(UnknownCommand { seq: 1, command: Text { bytes: [112, 97, 117, 115, 101] } })",
        ),
        (
            "{\"seq\":5,\"type\":\"request\",\"command\":\"next\"}",
            "Err(BadArguments { seq: 5, command: Text { bytes: [110, 101, 120, 116] }, field: Text { bytes: [116, 104, 114, 101, 97, 100, 73, 100] } })",
        ),
    ];
    for (content, shown) in cases {
        assert!(rt; is_read(&rt, content, shown)?, "{content}");
    }
    Ok(())
}

#[test]
fn bad_arguments(rt: HostRuntime) -> Result<(), Fail> {
    let cases = [
        ("initialize", "{\"linesStartAt1\":false}", "linesStartAt1"),
        (
            "initialize",
            "{\"columnsStartAt1\":null}",
            "columnsStartAt1",
        ),
        ("launch", "{\"stopOnEntry\":1}", "stopOnEntry"),
        ("setBreakpoints", "{\"breakpoints\":{}}", "breakpoints"),
        (
            "setBreakpoints",
            "{\"breakpoints\":[{\"line\":1},{}]}",
            "breakpoints",
        ),
        (
            "setBreakpoints",
            "{\"breakpoints\":[{\"line\":1,\"condition\":7}]}",
            "breakpoints",
        ),
        (
            "stackTrace",
            "{\"levels\":1.0,\"startFrame\":-0}",
            "threadId",
        ),
        (
            "stackTrace",
            "{\"levels\":1.0,\"startFrame\":-0,\"threadId\":1}",
            "startFrame",
        ),
        ("stackTrace", "{\"levels\":1.0,\"threadId\":1}", "levels"),
        ("scopes", "{\"frameId\":2147483648}", "frameId"),
        (
            "variables",
            "{\"variablesReference\":1e0}",
            "variablesReference",
        ),
        ("evaluate", "{\"frameId\":null}", "expression"),
        (
            "evaluate",
            "{\"expression\":\"x\",\"frameId\":null}",
            "frameId",
        ),
        (
            "stepIn",
            "{\"granularity\":\"word\",\"threadId\":1,\"targetId\":-1}",
            "targetId",
        ),
        (
            "next",
            "{\"granularity\":\"word\",\"threadId\":1}",
            "granularity",
        ),
        ("gobpie/edit", "{\"text\":1}", "text"),
        ("gobpie/await", "{\"edit\":0}", "edit"),
    ];
    for (command, arguments, field) in cases {
        assert!(rt;
            is_bad(&rt, command, arguments, field)?,
            "{command} {arguments}"
        );
    }
    Ok(())
}

/// The arguments of so many breakpoints.
fn many(rt: &HostRuntime, count: usize) -> Result<String, AllocError> {
    let mut text = String::from_str(rt.alloc(), "{\"breakpoints\":[{\"line\":1}")?;
    for _ in 1..count {
        text.push_str(",{\"line\":1}")?;
    }
    text.push_str("]}")?;
    Ok(text)
}

#[test]
fn the_most_breakpoints(rt: HostRuntime) -> Result<(), Fail> {
    let most = content(&rt, "setBreakpoints", many(&rt, 256)?.as_str())?;
    assert!(rt; read_request(rt.alloc(), most.as_bytes()).is_ok());
    assert!(rt;
        is_bad(
            &rt,
            "setBreakpoints",
            many(&rt, 257)?.as_str(),
            "breakpoints"
        )?
    );
    Ok(())
}

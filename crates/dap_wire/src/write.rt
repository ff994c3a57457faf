ghost use Rattle.std.specs.Prelude.{◌≡◌, Some, IfOk, All, option_map};
ghost use Rattle.serde_json.specs.View.{view};
ghost use Rattle.serde_json.specs.Written.{compact_text};
ghost use Rattle.dap_wire.specs.Messages.{capabilities, body_of, event_body, event_name, stop_reason, verdict, scope_data, frames_body, scopes_body, result_body, judged_body, status_body, response_data, refusal_data, event_data, message_data};
ghost use Rattle.dap_wire.specs.MessageTexts.{IsFrameName, IsFrameFile, IsBodyText, IsEventText, IsMessageText};
ghost use Rattle.dap_wire.specs.Texts.{IsText};

use crate::infos::{
    breakpoint_value, breakpoints_value, frames_value, targets_value, text_value, threads_value,
    variables_value,
};
use crate::message::{EventBody, FrameInfo, Judgement, Message, Reason, ReplyBody};
use gob_tree::{Memory, Text};
use serde_json::{Value, json};
use std::alloc::{AllocError, Global};

/// The bytes of a message: the compact text of its JSON value, with the keys of each object in the
/// order of their bytes. `Memory` is want of memory.
pub fn write_message(alloc: Global, message: &Message) -> Result<Vec<u8>, Memory>
    requires { IsMessageText message.now }
    ensures { IfOk result (λ bytes. bytes.items ≡ compact_text (message_data message.now)) }
{
    let value = message_value(alloc, message)?;
    Ok(value.to_vec(alloc)?)
}

fn message_value(alloc: Global, message: &Message) -> Result<Value, AllocError>
    requires { IsMessageText message.now }
    ensures { IfOk result (λ v. view v ≡ message_data message.now) }
{
    match message {
        Message::Response {
            seq,
            request_seq,
            command,
            body,
        } => {
            let body = body_value(alloc, body)?;
            response_value(alloc, *seq, *request_seq, command, body)
        }
        Message::Refusal {
            seq,
            request_seq,
            command,
            message,
        } => refusal_value(alloc, *seq, *request_seq, command, message),
        Message::Event { seq, body } => {
            let value = event_body_value(alloc, body)?;
            event_value(alloc, *seq, event_name(body), value)
        }
    }
}

fn response_value(
    alloc: Global,
    seq: u64,
    request_seq: u32,
    command: &Text,
    body: Option<Value>,
) -> Result<Value, AllocError>
    requires { IsText command.now }
    ensures { IfOk result (λ v. view v ≡ response_data seq request_seq command.now (option_map view body)) }
{
    let command = text_value(alloc, command)?;
    match body {
        None => json!(in alloc; {
            "command": command,
            "request_seq": request_seq,
            "seq": seq,
            "success": true,
            "type": "response",
        }),
        Some(body) => json!(in alloc; {
            "body": body,
            "command": command,
            "request_seq": request_seq,
            "seq": seq,
            "success": true,
            "type": "response",
        }),
    }
}

fn refusal_value(
    alloc: Global,
    seq: u64,
    request_seq: u32,
    command: &Text,
    message: &Text,
) -> Result<Value, AllocError>
    requires command { IsText command.now }
    requires message { IsText message.now }
    ensures { IfOk result (λ v. view v ≡ refusal_data seq request_seq command.now message.now) }
{
    let command = text_value(alloc, command)?;
    let message = text_value(alloc, message)?;
    json!(in alloc; {
        "command": command,
        "message": message,
        "request_seq": request_seq,
        "seq": seq,
        "success": false,
        "type": "response",
    })
}

fn event_value(
    alloc: Global,
    seq: u64,
    name: &str,
    body: Option<Value>,
) -> Result<Value, AllocError>
    ensures { IfOk result (λ v. view v ≡ event_data seq name.now (option_map view body)) }
{
    match body {
        None => json!(in alloc; {"event": name, "seq": seq, "type": "event"}),
        Some(body) => json!(in alloc; {"body": body, "event": name, "seq": seq, "type": "event"}),
    }
}

fn event_name(body: &EventBody) -> &'static str
    ensures { result.now ≡ event_name body.now }
{
    match body {
        EventBody::Initialized => "initialized",
        EventBody::Stopped { .. } => "stopped",
        EventBody::Terminated => "terminated",
        EventBody::Breakpoint(_) => "breakpoint",
    }
}

fn event_body_value(alloc: Global, body: &EventBody) -> Result<Option<Value>, AllocError>
    requires { IsEventText body.now }
    ensures { IfOk result (λ o. option_map view o ≡ event_body body.now) }
{
    match body {
        EventBody::Initialized | EventBody::Terminated => Ok(None),
        EventBody::Stopped { reason, thread } => {
            let (reason, thread) = (stop_reason(*reason), *thread);
            Ok(Some(json!(in alloc; {
                "allThreadsStopped": true,
                "reason": reason,
                "threadId": thread,
            })?))
        }
        EventBody::Breakpoint(info) => {
            let info = breakpoint_value(alloc, info)?;
            Ok(Some(json!(in alloc; {"breakpoint": info, "reason": "changed"})?))
        }
    }
}

fn stop_reason(reason: Reason) -> &'static str
    ensures { result.now ≡ stop_reason reason }
{
    match reason {
        Reason::Entry => "entry",
        Reason::Step => "step",
        Reason::Breakpoint => "breakpoint",
    }
}

fn verdict(judgement: Judgement) -> &'static str
    ensures { result.now ≡ verdict judgement }
{
    match judgement {
        Judgement::Published => "published",
        Judgement::Budget => "budget",
        Judgement::Memory => "memory",
    }
}

/// The body of a response, if it has one.
fn body_value(alloc: Global, body: &ReplyBody) -> Result<Option<Value>, AllocError>
    requires { IsBodyText body.now }
    ensures { IfOk result (λ o. option_map view o ≡ body_of body.now) }
{
    match body {
        ReplyBody::Empty => Ok(None),
        ReplyBody::Capabilities => Ok(Some(capabilities(alloc)?)),
        ReplyBody::Breakpoints(infos) => {
            let list = breakpoints_value(alloc, infos.as_slice())?;
            Ok(Some(json!(in alloc; {"breakpoints": list})?))
        }
        ReplyBody::Threads(infos) => {
            let list = threads_value(alloc, infos.as_slice())?;
            Ok(Some(json!(in alloc; {"threads": list})?))
        }
        ReplyBody::Frames { frames, total } => {
            Ok(Some(frames_body(alloc, frames.as_slice(), *total)?))
        }
        ReplyBody::Scopes { locals, globals } => Ok(Some(scopes_body(alloc, *locals, *globals)?)),
        ReplyBody::Variables(infos) => {
            let list = variables_value(alloc, infos.as_slice())?;
            Ok(Some(json!(in alloc; {"variables": list})?))
        }
        ReplyBody::Result(value) => Ok(Some(result_body(alloc, value)?)),
        ReplyBody::Targets(labels) => {
            let list = targets_value(alloc, labels.as_slice())?;
            Ok(Some(json!(in alloc; {"targets": list})?))
        }
        ReplyBody::Continued => Ok(Some(json!(in alloc; {"allThreadsContinued": true})?)),
        ReplyBody::Edit(edit) => {
            let edit = *edit;
            Ok(Some(json!(in alloc; {"edit": edit})?))
        }
        ReplyBody::Judged(judgement) => Ok(Some(judged_body(alloc, *judgement)?)),
        ReplyBody::Status {
            edits,
            pinned,
            published,
        } => Ok(Some(status_body(alloc, *edits, *pinned, *published)?)),
    }
}

fn frames_body(alloc: Global, frames: &[FrameInfo], total: u64) -> Result<Value, AllocError>
    requires names { All IsFrameName frames.now }
    requires files { All IsFrameFile frames.now }
    ensures { IfOk result (λ v. view v ≡ frames_body frames.now total) }
{
    let list = frames_value(alloc, frames)?;
    json!(in alloc; {"stackFrames": list, "totalFrames": total})
}

fn scopes_body(alloc: Global, locals: u64, globals: u64) -> Result<Value, AllocError>
    ensures { IfOk result (λ v. view v ≡ scopes_body locals globals) }
{
    let locals = scope_value(alloc, "Locals", locals)?;
    let globals = scope_value(alloc, "Globals", globals)?;
    json!(in alloc; {"scopes": [locals, globals]})
}

fn result_body(alloc: Global, value: &Text) -> Result<Value, AllocError>
    requires { IsText value.now }
    ensures { IfOk result (λ v. view v ≡ result_body value.now) }
{
    let value = text_value(alloc, value)?;
    json!(in alloc; {"result": value, "variablesReference": 0u32})
}

fn judged_body(alloc: Global, judgement: Judgement) -> Result<Value, AllocError>
    ensures { IfOk result (λ v. view v ≡ judged_body judgement) }
{
    let verdict = verdict(judgement);
    json!(in alloc; {"verdict": verdict})
}

fn status_body(alloc: Global, edits: u32, pinned: u32, published: u32) -> Result<Value, AllocError>
    ensures { IfOk result (λ v. view v ≡ status_body edits pinned published) }
{
    json!(in alloc; {"edits": edits, "pinned": pinned, "published": published})
}

fn scope_value(alloc: Global, name: &str, reference: u64) -> Result<Value, AllocError>
    ensures { IfOk result (λ v. view v ≡ scope_data name.now reference) }
{
    json!(in alloc; {"expensive": false, "name": name, "variablesReference": reference})
}

fn capabilities(alloc: Global) -> Result<Value, AllocError>
    ensures { IfOk result (λ v. view v ≡ capabilities) }
{
    json!(in alloc; {
        "supportsConditionalBreakpoints": true,
        "supportsConfigurationDoneRequest": true,
        "supportsRestartRequest": true,
        "supportsStepBack": true,
        "supportsStepInTargetsRequest": true,
        "supportsSteppingGranularity": true,
    })
}

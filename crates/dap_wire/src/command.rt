ghost use Rattle.std.specs.Prelude.{◌≡◌, IfOk};
ghost use Rattle.serde_json.specs.View.{view};
ghost use Rattle.dap_wire.specs.Readings.{IsReading};
ghost use Rattle.dap_wire.specs.Table.{command_of};
ghost use Rattle.dap_wire.specs.Sound.{IsSoundCommand};

use crate::arguments::{
    flag_or_true, granularity, needed_text, needed_whole, only_true, optional_whole, whole_or_zero,
};
use crate::breakpoints::breakpoints;
use crate::field::Field;
use crate::name::CommandName;
use crate::request::Command;
use crate::unread::Unread;
use serde_json::Value;
use std::alloc::Global;

/// The command of a name with its arguments.
pub(crate) fn command_of(
    alloc: Global,
    name: CommandName,
    arguments: &Value,
) -> Result<Command, Unread>
    ensures reading { IsReading result (command_of name (view arguments.now)) }
    ensures sound { IfOk result IsSoundCommand }
{
    match name {
        CommandName::Initialize => Ok(initialize(arguments)?),
        CommandName::Launch => Ok(Command::Launch {
            stop_on_entry: flag_or_true(arguments, Field::StopOnEntry)?,
        }),
        CommandName::SetBreakpoints => Ok(Command::SetBreakpoints {
            breakpoints: breakpoints(alloc, arguments)?,
        }),
        CommandName::SetExceptionBreakpoints => Ok(Command::SetExceptionBreakpoints),
        CommandName::ConfigurationDone => Ok(Command::ConfigurationDone),
        CommandName::Threads => Ok(Command::Threads),
        CommandName::StackTrace => Ok(stack_trace(arguments)?),
        CommandName::Scopes => Ok(Command::Scopes {
            frame: needed_whole(arguments, Field::FrameId, 0)?,
        }),
        CommandName::Variables => Ok(Command::Variables {
            reference: needed_whole(arguments, Field::VariablesReference, 0)?,
        }),
        CommandName::Evaluate => evaluate(alloc, arguments),
        CommandName::Next => Ok(next(arguments)?),
        CommandName::StepIn => Ok(step_in(arguments)?),
        CommandName::StepInTargets => Ok(Command::StepInTargets {
            frame: needed_whole(arguments, Field::FrameId, 0)?,
        }),
        CommandName::StepOut => Ok(step_out(arguments)?),
        CommandName::StepBack => Ok(step_back(arguments)?),
        CommandName::Continue => Ok(Command::Continue {
            thread: needed_whole(arguments, Field::ThreadId, 0)?,
        }),
        CommandName::Restart => Ok(Command::Restart),
        CommandName::Disconnect => Ok(Command::Disconnect),
        CommandName::Edit => Ok(Command::Edit {
            text: needed_text(alloc, arguments, Field::Text)?,
        }),
        CommandName::Await => Ok(Command::Await {
            edit: needed_whole(arguments, Field::Edit, 1)?,
        }),
        CommandName::Status => Ok(Command::Status),
    }
}

fn initialize(arguments: &Value) -> Result<Command, Field>
    ensures reading { result ≡ command_of CommandName.Initialize (view arguments.now) }
    ensures sound { IfOk result IsSoundCommand }
{
    only_true(arguments, Field::LinesStartAt1)?;
    only_true(arguments, Field::ColumnsStartAt1)?;
    Ok(Command::Initialize)
}

fn stack_trace(arguments: &Value) -> Result<Command, Field>
    ensures reading { result ≡ command_of CommandName.StackTrace (view arguments.now) }
    ensures sound { IfOk result IsSoundCommand }
{
    let thread = needed_whole(arguments, Field::ThreadId, 0)?;
    let start = whole_or_zero(arguments, Field::StartFrame)?;
    let levels = whole_or_zero(arguments, Field::Levels)?;
    Ok(Command::StackTrace {
        thread,
        start,
        levels,
    })
}

fn evaluate(alloc: Global, arguments: &Value) -> Result<Command, Unread>
    ensures reading { IsReading result (command_of CommandName.Evaluate (view arguments.now)) }
    ensures sound { IfOk result IsSoundCommand }
{
    let expression = needed_text(alloc, arguments, Field::Expression)?;
    let frame = optional_whole(arguments, Field::FrameId)?;
    Ok(Command::Evaluate { expression, frame })
}

fn next(arguments: &Value) -> Result<Command, Field>
    ensures reading { result ≡ command_of CommandName.Next (view arguments.now) }
    ensures sound { IfOk result IsSoundCommand }
{
    let thread = needed_whole(arguments, Field::ThreadId, 0)?;
    let granularity = granularity(arguments)?;
    Ok(Command::Next {
        thread,
        granularity,
    })
}

fn step_in(arguments: &Value) -> Result<Command, Field>
    ensures reading { result ≡ command_of CommandName.StepIn (view arguments.now) }
    ensures sound { IfOk result IsSoundCommand }
{
    let thread = needed_whole(arguments, Field::ThreadId, 0)?;
    let target = optional_whole(arguments, Field::TargetId)?;
    let granularity = granularity(arguments)?;
    Ok(Command::StepIn {
        thread,
        target,
        granularity,
    })
}

fn step_out(arguments: &Value) -> Result<Command, Field>
    ensures reading { result ≡ command_of CommandName.StepOut (view arguments.now) }
    ensures sound { IfOk result IsSoundCommand }
{
    let thread = needed_whole(arguments, Field::ThreadId, 0)?;
    let granularity = granularity(arguments)?;
    Ok(Command::StepOut {
        thread,
        granularity,
    })
}

fn step_back(arguments: &Value) -> Result<Command, Field>
    ensures reading { result ≡ command_of CommandName.StepBack (view arguments.now) }
    ensures sound { IfOk result IsSoundCommand }
{
    let thread = needed_whole(arguments, Field::ThreadId, 0)?;
    let granularity = granularity(arguments)?;
    Ok(Command::StepBack {
        thread,
        granularity,
    })
}

ghost use Rattle.std.specs.Prelude.{◌≡◌};
ghost use Rattle.dap_wire.specs.Names.{command_named};

/// The commands, without their arguments.
#[derive(Clone, Copy)]
pub(crate) enum CommandName {
    Initialize,
    Launch,
    SetBreakpoints,
    SetExceptionBreakpoints,
    ConfigurationDone,
    Threads,
    StackTrace,
    Scopes,
    Variables,
    Evaluate,
    Next,
    StepIn,
    StepInTargets,
    StepOut,
    StepBack,
    Continue,
    Restart,
    Disconnect,
    Edit,
    Await,
    Status,
}

/// The command of this name.
pub(crate) fn command_named(name: &str) -> Option<CommandName>
    ensures { result ≡ command_named name.now }
{
    match name {
        "initialize" => Some(CommandName::Initialize),
        "launch" => Some(CommandName::Launch),
        "setBreakpoints" => Some(CommandName::SetBreakpoints),
        "setExceptionBreakpoints" => Some(CommandName::SetExceptionBreakpoints),
        "configurationDone" => Some(CommandName::ConfigurationDone),
        "threads" => Some(CommandName::Threads),
        "stackTrace" => Some(CommandName::StackTrace),
        "scopes" => Some(CommandName::Scopes),
        "variables" => Some(CommandName::Variables),
        "evaluate" => Some(CommandName::Evaluate),
        "next" => Some(CommandName::Next),
        "stepIn" => Some(CommandName::StepIn),
        "stepInTargets" => Some(CommandName::StepInTargets),
        "stepOut" => Some(CommandName::StepOut),
        "stepBack" => Some(CommandName::StepBack),
        "continue" => Some(CommandName::Continue),
        "restart" => Some(CommandName::Restart),
        "disconnect" => Some(CommandName::Disconnect),
        "gobpie/edit" => Some(CommandName::Edit),
        "gobpie/await" => Some(CommandName::Await),
        "gobpie/status" => Some(CommandName::Status),
        _ => None,
    }
}

ghost use Rattle.std.specs.Prelude.{◌≡◌};
ghost use Rattle.dap_wire.specs.Fields.{key_of};

/// The arguments that are read.
#[derive(Clone, Copy)]
pub(crate) enum Field {
    LinesStartAt1,
    ColumnsStartAt1,
    StopOnEntry,
    Breakpoints,
    ThreadId,
    StartFrame,
    Levels,
    FrameId,
    VariablesReference,
    Expression,
    Granularity,
    TargetId,
    Text,
    Edit,
}

impl Field {
    /// Its key in the object of arguments.
    pub(crate) fn key(self) -> &'static str
        ensures { result.now ≡ key_of self }
    {
        match self {
            Field::LinesStartAt1 => "linesStartAt1",
            Field::ColumnsStartAt1 => "columnsStartAt1",
            Field::StopOnEntry => "stopOnEntry",
            Field::Breakpoints => "breakpoints",
            Field::ThreadId => "threadId",
            Field::StartFrame => "startFrame",
            Field::Levels => "levels",
            Field::FrameId => "frameId",
            Field::VariablesReference => "variablesReference",
            Field::Expression => "expression",
            Field::Granularity => "granularity",
            Field::TargetId => "targetId",
            Field::Text => "text",
            Field::Edit => "edit",
        }
    }
}

ghost use Rattle.std.specs.Prelude.{◌≡◌};
ghost use Rattle.gobpie_main.specs.Status.{exit_number};

/// How a command ended. Its number is the program's exit status.
#[derive(Clone, Copy, Debug, PartialEq, Eq)]
pub enum Status {
    Ok,
    /// The words have no reading.
    Usage,
    /// A file that the words name couldn't be read.
    ReadFault,
    /// What was owed couldn't be written.
    WriteFault,
    /// The text is too long, or isn't one that is taken.
    SourceRefused,
    /// What came in isn't the protocol of a session.
    Protocol,
    /// The budget of turns ended before the table was solved.
    Spent,
    /// The text isn't that of a table that is taken.
    TableRefused,
    /// Want of memory.
    Memory,
    /// A connection couldn't be taken.
    AcceptFault,
    /// A line of the schedule is bad, or the schedule is too long.
    ScriptRefused,
}

impl Status {
    /// The exit status: 0, or 2 to 11.
    pub fn number(self) -> u8
        ensures { result ≡ exit_number self }
    {
        match self {
            Status::Ok => 0,
            Status::Usage => 2,
            Status::ReadFault => 3,
            Status::WriteFault => 4,
            Status::SourceRefused => 5,
            Status::Protocol => 6,
            Status::Spent => 7,
            Status::TableRefused => 8,
            Status::Memory => 9,
            Status::AcceptFault => 10,
            Status::ScriptRefused => 11,
        }
    }
}

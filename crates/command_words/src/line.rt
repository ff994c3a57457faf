use gob_tree::Text;

/// What the words of a command line ask for, with defaults filled in. Files are named as the system
/// names them, relative to the folder of the call.
#[derive(Drop)]
pub enum CommandLine {
    /// `analyse FILE [--budget N]`: the table of a program, by at most `budget` turns, 1 to
    /// 10,000,000 (100,000).
    Analyse {
        file: Text,
        budget: u64,
    },
    /// `run FILE SCHEDULE`: one run of a program, by the choices of a schedule.
    Run {
        file: Text,
        schedule: Text,
    },
    /// `replay SCRIPT`: the events of a script.
    Replay {
        script: Text,
    },
    /// `load NUMBER [--functions N]`: a generated program of `functions` functions, 1 to 120 (40).
    /// `number` has 1 to 18 digits.
    Load {
        number: u64,
        functions: u32,
    },
    /// `debug FILE [--budget N]`: a session over standard input and output, with at most `budget`
    /// turns for an edition, 1 to 50,000 (20,000).
    Debug {
        file: Text,
        budget: u64,
    },
    /// `serve FILE [--hands H] [--rounds R] [--port P] [--budget N]`: sessions over sockets of
    /// 127.0.0.1. There are 1 to 8 hands (1), each of 1 to 1,000 rounds (1); hand i, from 0 on, is at
    /// port P + i, with P from 1,024 to 65,000 (4,711). The budget is that of `debug`.
    Serve {
        file: Text,
        hands: u32,
        rounds: u32,
        port: u16,
        budget: u64,
    },
}

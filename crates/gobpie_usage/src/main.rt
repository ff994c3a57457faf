//! The program, as it is run on words that have no reading.
#![tactic(auto)]

use std::process::ExitCode;

fn main(rt: HostRuntime) -> ExitCode {
    gobpie_main::program(&rt, rt.stdout(), rt.stderr())
}

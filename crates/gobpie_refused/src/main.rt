//! The program, as it is run on a text that isn't taken.
#![tactic(auto)]

use std::process::ExitCode;

fn main(rt: HostRuntime) -> ExitCode {
    gobpie_main::program(&rt, rt.stdout(), rt.stderr())
}

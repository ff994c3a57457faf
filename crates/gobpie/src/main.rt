//! The program `gobpie`.
#![tactic(auto)]

use std::process::ExitCode;

fn main(rt: HostRuntime) -> ExitCode {
    gobpie_main::program(&rt, rt.stdout(), rt.stderr())
}

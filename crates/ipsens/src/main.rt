//! The program `ipsens`: an exact solver for bounded integer programs.
#![tactic(auto)]

use std::process::ExitCode;

fn main(rt: HostRuntime) -> ExitCode {
    ipsens_program::program(rt)
}

//! The program `ipsens` where reading fails: status 6, and nothing on standard output.
#![tactic(auto)]

use std::process::ExitCode;

fn main(rt: HostRuntime) -> ExitCode {
    ipsens_program::program(rt)
}

// The program once more, run by the gate over a plan in cycles.
#![tactic(auto)]

use commands::run_command;
use std::process::ExitCode;

fn main(rt: HostRuntime) -> anyhow::Result<ExitCode> {
    run_command(&rt)
}

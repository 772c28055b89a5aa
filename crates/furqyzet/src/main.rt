// The program: its arguments are a command. The gate runs it over a plan; `cyclesrun` and `replayrun` are the same program, since
// the gate runs a program with one list of arguments.
#![tactic(auto)]

use commands::run_command;
use std::process::ExitCode;

fn main(rt: HostRuntime) -> anyhow::Result<ExitCode> {
    run_command(&rt)
}

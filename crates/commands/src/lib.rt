// The program's commands: a path frame explained, planned and rewritten, and scripts of calls replayed.
#![tactic(auto)]

mod answering;
mod bounds;
mod counts;
mod cycles;
mod handlers;
mod live;
mod made;
mod options;
mod planning;
mod replaying;
mod script;
mod table;

use console::{Stop, check, complain, exit_code, rewrite_file};
use options::plan_options;
use planning::plan_file;
use replaying::replay;
use std::env;
use std::process::ExitCode;

const VERSION: &str = "furqyzet 0.2.0";

const HELP: &str = "furqyzet: speed planning for sampled paths, proved.

  furqyzet check FRAME          say what a path frame holds, or which question refuses it and where
  furqyzet plan FRAME [--allowance K] [--setpoints OUT] [--quiet]
                                plan the path in cycles of K evaluations (at once, if none is given) and print its
                                classes and speeds, or say why no table fits; write its setpoint frame to OUT;
                                with --quiet, print the totals alone
  furqyzet rewrite FRAME OUT    write the frame's records to OUT
  furqyzet replay SCRIPT        make the calls of a script, one to a line, and print one answer to a line
  furqyzet help                 this page
  furqyzet --version            the version

The status is 0, or 1 where a frame is refused, a path is impossible, a file can't be read or written, or a script breaks off.";

// Does what the program's arguments ask for: the status is 1 where that failed for a reason that is printed already. An
// error is printed by `main`, and is the status 1 too.
pub fn run_command(rt: &HostRuntime) -> anyhow::Result<ExitCode> {
    exit_code(command(rt))
}

// A `match` on the words: a table of commands would be no shorter.
fn command(rt: &HostRuntime) -> Result<(), Stop> {
    let given: Vec<String> = env::args(rt)?.skip(1).collect(rt.alloc())?;
    let words: Vec<&str> = given.iter().map(|word| word.as_str()).collect(rt.alloc())?;
    match words.as_slice() {
        [] | ["help" | "--help" | "-h"] => println!(rt; "{HELP}")?,
        ["--version" | "-V"] => println!(rt; "{VERSION}")?,
        ["check", frame] => check(rt, frame)?,
        ["plan", options @ ..] => {
            let options = plan_options(options).map_err(|fault| complain(
                rt,
                format_args!("plan {fault}"),
            ))?;
            plan_file(rt, options)?;
        }
        ["replay", script] => replay(rt, script)?,
        ["rewrite", frame, out] => rewrite_file(rt, frame, out)?,
        [verb, ..] => return Err(complain(rt, format_args!("{verb} {}", usage(verb)))),
    }
    Ok(())
}

// What a verb takes that is there with other words behind it, or that it is none. Words for words: there is no type whose
// `Display` this could be.
fn usage(verb: &str) -> &'static str {
    match verb {
        "check" => "takes one file, as in furqyzet check FRAME",
        "rewrite" => "takes two files, as in furqyzet rewrite FRAME OUT",
        "replay" => "takes one file, as in furqyzet replay SCRIPT",
        _ => "is no command; furqyzet help lists them",
    }
}

// Where the run of a script breaks off.
ghost use Rattle.std.specs.Prelude.{◌≡◌};
ghost use Rattle.anyhow.specs.declared.error.Error.{Error};

use super::stop::{Stop, complain};

// A line of a script: the script's file, the line's index and its text.
#[derive(Clone, Copy, Debug, PartialEq, Eq)]
pub struct Place<'a> {
    pub path: &'a str,
    pub index: usize,
    pub line: &'a str,
}

// The stop for a line that came to one: where its reason is printed already, it is said that the run breaks off there.
pub fn break_off(rt: &HostRuntime, place: Place<'_>, stop: Stop) -> Stop
    ensures { (error : Error) → stop ≡ Stop.Other error → result ≡ stop }
{
    match stop {
        Stop::Reported => {
            let Place { path, index, line } = place;
            let number = index.saturating_add(1);
            complain(
                rt,
                format_args!("{path} breaks off at line {number}: {line}"),
            )
        }
        Stop::Other(error) => Stop::Other(error),
    }
}

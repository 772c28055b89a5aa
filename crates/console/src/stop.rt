// Why a command stops before its end, and the status of the program then.
ghost use Rattle.std.specs.Prelude.{◌≡◌, MatchResult};
ghost use Rattle.anyhow.specs.declared.error.Error.{Error};
ghost use Rattle.console.specs.declared.stop.Stop.TheVariants.{Other};

use std::alloc::{AllocError, AllocFailed};
use std::process::ExitCode;
use std::{fmt, io};

// An error of any kind may be in it, so it is never compared.
#[derive(Debug, Drop)]
pub enum Stop {
    // The reason is printed already.
    Reported,
    // Any other error, which `main` passes on.
    Other(anyhow::Error),
}

// By hand: it is `Other` of an error, whatever that is, which `thiserror` would keep as a variant for each.
impl From<anyhow::Error> for Stop {
    ghost from_gives = { λ e r. r ≡ Other e };

    fn from(error: anyhow::Error) -> Stop {
        Stop::Other(error)
    }
}

impl From<io::Error> for Stop {
    ghost from_gives = { λ _ r. (e : Error) × r ≡ Other e };

    fn from(error: io::Error) -> Stop {
        Stop::Other(error.into())
    }
}

impl From<AllocError> for Stop {
    ghost from_gives = { λ _ r. (e : Error) × r ≡ Other e };

    fn from(error: AllocError) -> Stop {
        Stop::Other(error.into())
    }
}

impl<T: Drop> From<AllocFailed<T>> for Stop {
    ghost from_gives = { λ _ r. (e : Error) × r ≡ Other e };

    fn from(failed: AllocFailed<T>) -> Stop {
        Stop::Other(AllocError::from(failed).into())
    }
}

// The stop for a reason that was printed, or for the error that kept it from being.
pub(crate) fn reported(printed: io::Result<()>) -> Stop
    ensures { MatchResult printed (λ _. result ≡ Stop.Reported) (λ _. (error : Error) × (result ≡ Stop.Other error)) }
{
    match printed {
        Ok(()) => Stop::Reported,
        Err(error) => Stop::from(error),
    }
}

// Says on standard error what is wrong: the stop for it.
pub fn complain<M: fmt::Display + Drop>(rt: &HostRuntime, reason: M) -> Stop {
    reported(eprintln!(rt; "furqyzet: {reason}"))
}

// What `main` returns of a command that ended so: the status is 1 where the reason is printed already, and any other error
// is for `main` to print.
pub fn exit_code(ended: Result<(), Stop>) -> anyhow::Result<ExitCode>
    ensures done { ended ≡ Ok tt → result ≡ Ok ExitCode.SUCCESS }
    ensures reported { ended ≡ Err Stop.Reported → result ≡ Ok ExitCode.FAILURE }
    ensures other { (error : Error) → ended ≡ Err (Stop.Other error) → result ≡ Err error }
{
    match ended {
        Ok(()) => Ok(ExitCode::SUCCESS),
        Err(Stop::Reported) => Ok(ExitCode::FAILURE),
        Err(Stop::Other(error)) => Err(error),
    }
}

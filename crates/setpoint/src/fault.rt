// Why a job is not released, or its setpoints not written: the first question that is answered no.
ghost use Rattle.std.specs.Prelude.{◌≡◌};
ghost use Rattle.setpoint.specs.declared.fault.SetpointFault.TheVariants.{Sheets};
ghost use Rattle.setpoint.specs.Faults.{question_of};

use runs::Fault;
use thiserror::Error;

#[derive(Clone, Copy, Debug, PartialEq, Eq, Error)]
pub enum SetpointFault {
    // A memory beside the job is too short for its samples.
    #[error(transparent)]
    Sheets(Fault),
    #[error("the job must be settled")]
    NotSettled,
    #[error("the memory must hold the setpoint frame")]
    NoSetpointMemory,
}

impl SetpointFault {
    // The number of the question that said no, as the formats count questions.
    pub fn number(self) -> u8
        ensures { result ≡ question_of self }
    {
        match self {
            SetpointFault::Sheets(found) => found.number(),
            SetpointFault::NotSettled => 70,
            SetpointFault::NoSetpointMemory => 71,
        }
    }
}

// By hand: a derived conversion does not say which variant it gives.
impl From<Fault> for SetpointFault {
    ghost from_gives = { λ e r. r ≡ Sheets e };

    fn from(fault: Fault) -> SetpointFault {
        SetpointFault::Sheets(fault)
    }
}

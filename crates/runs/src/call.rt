// The calls on a job, and why one is refused.
ghost use Rattle.std.specs.Prelude.{◌≡◌};
ghost use Rattle.runs.specs.Faults.{question_of};

use super::stage::Make;
use thiserror::Error;

// A call with its numbers, each any that 64 bits hold.
#[derive(Clone, Copy, Debug, PartialEq, Eq)]
pub enum Call {
    // At most so many evaluations.
    Advance(u64),
    // The cap of a sample falls to a value.
    Cut(Make, u64, u64),
    // The floor of a sample rises to a value.
    Lift(Make, u64, u64),
    // Where the job stands, and a sample's class and squared speed.
    Look(u64),
}

// Why a call is refused: the first question that is answered no. It prints what that question asks.
#[derive(Clone, Copy, Debug, PartialEq, Eq, Error)]
pub enum Fault {
    #[error("a path must have 2 to 4096 samples")]
    BadCount,
    #[error("the class memory must hold every sample")]
    NoClassMemory,
    #[error("the speed memory must hold every sample")]
    NoSpeedMemory,
    #[error("the sample must be on the path")]
    NoSample,
    #[error("the value must be at most the top of its make")]
    AboveTop,
    #[error("the job must not be impossible")]
    JobImpossible,
}

impl Fault {
    // The number of the question that it answers no. A refusal is known outside by this number: it is printed and documented.
    pub fn number(self) -> u8
        ensures { result ≡ question_of self }
    {
        match self {
            Fault::BadCount => 14,
            Fault::NoClassMemory => 50,
            Fault::NoSpeedMemory => 51,
            Fault::NoSample => 60,
            Fault::AboveTop => 61,
            Fault::JobImpossible => 62,
        }
    }
}

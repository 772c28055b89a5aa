// Why a making is refused: the first question that says no, of the frame or of the memory.
ghost use Rattle.std.specs.Prelude.{◌≡◌};
ghost use Rattle.planner.specs.declared.fault.MakeFault.TheVariants.{Frame};
ghost use Rattle.planner.specs.Asking.{make_refusal, remembered};

use frame::{FrameFault, Layer, Refusal};
use std::error::Error;
use std::fmt;

#[derive(Clone, Copy, Debug, PartialEq, Eq)]
pub enum MakeFault {
    // The reader refuses the bytes.
    Frame(FrameFault),
    // The class memory has fewer cells than the path has samples.
    NoClassMemory,
    NoSpeedMemory,
}

// By hand: a derived conversion does not say which variant it gives.
impl From<FrameFault> for MakeFault {
    ghost from_gives = { λ e r. r ≡ Frame e };

    fn from(fault: FrameFault) -> MakeFault {
        MakeFault::Frame(fault)
    }
}

// What the question that said no asks. By hand, since the two faults of memory share a sentence.
impl fmt::Display for MakeFault {
    fn fmt<W: fmt::Write>(&self, f: &mut fmt::Formatter<W>) -> fmt::Result {
        match self {
            MakeFault::Frame(fault) => fault.fmt(f),
            MakeFault::NoClassMemory | MakeFault::NoSpeedMemory => {
                write!(f, "the memory must hold every sample")
            }
        }
    }
}

impl Error for MakeFault {}

// The numbers of the questions about memory, as the format counts questions.
const CLASS_MEMORY: u8 = 50;

const SPEED_MEMORY: u8 = 51;

// A question about memory, which has no place in the frame.
fn of_memory(number: u8) -> Refusal
    ensures { result ≡ remembered number }
{
    Refusal {
        layer: Layer::Memory,
        number,
        place: 0,
    }
}

impl MakeFault {
    /// The refusal's layer, number and place; of a refused frame, the reader's.
    pub fn refusal(self) -> Refusal
        ensures { result ≡ make_refusal self }
    {
        match self {
            MakeFault::Frame(fault) => fault.refusal(),
            MakeFault::NoClassMemory => of_memory(CLASS_MEMORY),
            MakeFault::NoSpeedMemory => of_memory(SPEED_MEMORY),
        }
    }
}

// Why a path frame is refused: the first question that says no, of the frame itself or of one of its records.
ghost use Rattle.std.specs.Prelude.{◌≡◌};
ghost use Rattle.frame.specs.declared.fault.FrameFault.TheVariants.{Sample, Gap, Row};

use record::{GapFault, RecordFault, RowFault, SampleFault};
use thiserror::Error;

/// Each fault prints what the question that said no asks.
#[derive(Clone, Copy, Debug, PartialEq, Eq, Error)]
pub enum FrameFault {
    #[error("a frame has at least 5 bytes: its version and its length")]
    TooShort,
    #[error("the version, byte 0, must be 1")]
    Version,
    #[error("the length must be the count of the bytes behind it")]
    Length,
    #[error("the length must be at least 10, for the body's own fields")]
    ShortBody,
    #[error("a path must have 2 to 4096 samples")]
    SampleCount,
    #[error("the spacing h must be at least 1")]
    Spacing,
    #[error("the lateral number a must be at most 2147483647")]
    Lateral,
    #[error("there may be at most 8192 torque rows")]
    RowCount,
    #[error("the length must be that of so many samples, gaps and torque rows")]
    Size,
    #[error("{}", .0.fault)]
    Sample(RecordFault<SampleFault>),
    #[error("{}", .0.fault)]
    Gap(RecordFault<GapFault>),
    #[error("{}", .0.fault)]
    Row(RecordFault<RowFault>),
}

// Three conversions by hand: contracts name the variant that each gives, which a derived one does not say.
impl From<RecordFault<SampleFault>> for FrameFault {
    ghost from_gives = { λ e r. r ≡ Sample e };

    fn from(fault: RecordFault<SampleFault>) -> FrameFault {
        FrameFault::Sample(fault)
    }
}

impl From<RecordFault<GapFault>> for FrameFault {
    ghost from_gives = { λ e r. r ≡ Gap e };

    fn from(fault: RecordFault<GapFault>) -> FrameFault {
        FrameFault::Gap(fault)
    }
}

impl From<RecordFault<RowFault>> for FrameFault {
    ghost from_gives = { λ e r. r ≡ Row e };

    fn from(fault: RecordFault<RowFault>) -> FrameFault {
        FrameFault::Row(fault)
    }
}

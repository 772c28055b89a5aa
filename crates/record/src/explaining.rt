// Each fault of a record in words: what the question that said no asks. By hand and not derived, since the faults of one
// question share its sentence.
use super::gap::GapFault;
use super::row::RowFault;
use super::sample::SampleFault;
use std::error::Error;
use std::fmt;

impl fmt::Display for SampleFault {
    fn fmt<W: fmt::Write>(&self, f: &mut fmt::Formatter<W>) -> fmt::Result {
        match *self {
            SampleFault::Kind => write!(
                f,
                "a sample's kind must be 0 (free), 1 (straight), 2 (bend) or 3 (fixed)"
            ),
            SampleFault::ZeroByte => write!(f, "a sample's fourth byte must be zero"),
            SampleFault::ClassCap | SampleFault::ClassFloor => {
                write!(f, "a class cap or floor must be at most 7")
            }
            SampleFault::Clause(fault) => write!(f, "{fault}"),
            SampleFault::SpeedFloor => write!(f, "a speed floor must be at most 2147483647"),
            SampleFault::EndOffset => write!(
                f,
                "the offset q must be zero at the first sample and the last"
            ),
        }
    }
}

impl fmt::Display for GapFault {
    fn fmt<W: fmt::Write>(&self, f: &mut fmt::Formatter<W>) -> fmt::Result {
        f.write_str(match self {
            GapFault::Rise | GapFault::Fall => "a class rise or fall must be at most 7",
            GapFault::ZeroBytes => "a gap's zero bytes must be zero",
            GapFault::Up | GapFault::Down => "up and down must be at most 2147483647",
        })
    }
}

impl fmt::Display for RowFault {
    fn fmt<W: fmt::Write>(&self, f: &mut fmt::Formatter<W>) -> fmt::Result {
        f.write_str(match self {
            RowFault::Gap => "a torque row must lie at a gap of the path",
            RowFault::ZeroBytes => "a torque row's zero bytes must be zero",
            RowFault::Order => "a torque row's gap may not be below that of the row before",
            RowFault::D | RowFault::C | RowFault::G | RowFault::Lo | RowFault::Hi => {
                "a torque row's numbers must lie within 16777216 of zero"
            }
            RowFault::LoAboveHi => "a torque row's lo may not be above its hi",
            RowFault::NoD => "a torque row's d may not be zero",
            RowFault::Weight => {
                "d - 2hc must not be zero, must have d's sign and must lie within 16777216 of zero"
            }
        })
    }
}

impl Error for SampleFault {}

impl Error for GapFault {}

impl Error for RowFault {}

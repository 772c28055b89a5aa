// What holds a value where it is, and what clashes with a floor, in words. The wrappers are only printed, and derive no
// comparison.
use binding::{Bound, Clash};
use runs::Make;
use std::fmt;

// The bound of a sample, short, for a table.
#[derive(Clone, Copy)]
pub struct BoundName(pub Option<Bound>);

impl fmt::Display for BoundName {
    fn fmt<W: fmt::Write>(&self, f: &mut fmt::Formatter<W>) -> fmt::Result {
        match self.0 {
            Some(Bound::Cap) => f.pad("cap"),
            Some(Bound::Class) => f.pad("class"),
            Some(Bound::RampBefore) => f.pad("ramp before"),
            Some(Bound::RampAfter) => f.pad("ramp after"),
            Some(Bound::Average) => f.pad("average"),
            Some(Bound::TorqueRow(row)) => write!(f, "torque row {row}"),
            None => f.pad("nothing"),
        }
    }
}

// The bound of a sample, in a sentence.
#[derive(Clone, Copy)]
struct Subject(Bound);

impl fmt::Display for Subject {
    fn fmt<W: fmt::Write>(&self, f: &mut fmt::Formatter<W>) -> fmt::Result {
        match self.0 {
            Bound::Cap => write!(f, "the cap"),
            Bound::Class => write!(f, "the class table at its class"),
            Bound::RampBefore => write!(f, "the ramp from the sample before"),
            Bound::RampAfter => write!(f, "the ramp from the sample after"),
            Bound::Average => write!(f, "the average of its neighbours"),
            Bound::TorqueRow(row) => write!(f, "torque row {row}"),
        }
    }
}

// The bound and the floor that clash at a sample.
#[derive(Clone, Copy)]
pub struct ClashText(pub Clash);

impl fmt::Display for ClashText {
    fn fmt<W: fmt::Write>(&self, f: &mut fmt::Formatter<W>) -> fmt::Result {
        let Clash {
            make,
            bound,
            most,
            floor,
        } = self.0;
        let thing = match make {
            Make::Classes => "class",
            Make::Speeds => "squared speed",
        };
        write!(f, "{} allows ", Subject(bound))?;
        match most {
            Some(most) => write!(f, "a {thing} of at most {most}")?,
            None => write!(f, "no {thing} at all")?,
        }
        write!(f, ", and the floor is {floor}")
    }
}

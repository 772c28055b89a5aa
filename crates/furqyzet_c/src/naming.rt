// What holds a sample's value where it is.
ghost use Rattle.std.specs.Prelude.{◌≡◌};
ghost use Rattle.furqyzet_c.specs.Cells.{class_cells_of, speed_cells_of};
ghost use Rattle.frame.specs.Views.{path_of};
ghost use Rattle.binding.specs.Binding.{sheets_on};
ghost use Rattle.furqyzet_c.specs.Calls.{make_in};
ghost use Rattle.furqyzet_c.specs.Naming.{bound_number, number_of, BindsFor, BindsOf, BindsWords};

use super::call_words::make_in;
use super::cells::{ClassCell, SpeedCell};
use super::lending::{class_cells, speed_cells};
use binding::{Bound, class_bound, speed_bound};
use frame::{PathFrame, read};
use grade::{Cell, Class, Speed};
use runs::Make;

// The number of the first torque row.
const FIRST_ROW: u32 = 6;

pub(crate) fn bound_number(bound: Bound) -> u32
    ensures { result ≡ bound_number bound }
{
    match bound {
        Bound::Cap => 1,
        Bound::Class => 2,
        Bound::RampBefore => 3,
        Bound::RampAfter => 4,
        Bound::Average => 5,
        Bound::TorqueRow(row) => FIRST_ROW.saturating_add(u32::try_from(row).unwrap_or(u32::MAX)),
    }
}

// The number of no bound.
const NO_BOUND: u32 = 0;

fn number_of(bound: Option<Bound>) -> u32
    ensures { result ≡ number_of bound }
{
    match bound {
        Some(bound) => bound_number(bound),
        None => NO_BOUND,
    }
}

// The number of what holds a sample's value of a make, in the sheets of a path's samples.
fn bound_for(
    frame: PathFrame<'_>,
    classes: &[Cell<Class>],
    speeds: &[Cell<Speed>],
    make: u8,
    sample: u64,
) -> u32
    ensures { BindsFor (path_of frame.entry.bytes.now) (make_in make) (sheets_on (path_of frame.entry.bytes.now) classes.now speeds.now) sample result }
{
    let at = sample as usize;
    match make_in(make) {
        Some(Make::Classes) => number_of(class_bound(frame, classes, at)),
        Some(Make::Speeds) => number_of(speed_bound(frame, classes, speeds, at)),
        None => NO_BOUND,
    }
}

// The same in memories, whose cells past the samples count for nothing.
fn bound_of(
    frame: PathFrame<'_>,
    classes: &[Cell<Class>],
    speeds: &[Cell<Speed>],
    make: u8,
    sample: u64,
) -> u32
    ensures { BindsOf (path_of frame.entry.bytes.now) (make_in make) classes.now speeds.now sample result }
{
    let n = frame.header().samples as usize;
    if classes.len() < n || speeds.len() < n {
        return NO_BOUND;
    }
    bound_for(frame, classes, speeds, make, sample)
}

// The same of a frame that is read first.
fn bound_in(
    bytes: &[u8],
    classes: &[Cell<Class>],
    speeds: &[Cell<Speed>],
    make: u8,
    sample: u64,
) -> u32
    ensures { BindsWords bytes.now make classes.now speeds.now sample result }
{
    match read(bytes) {
        Ok(_) => bound_of(PathFrame::over(bytes), classes, speeds, make, sample),
        Err(_) => NO_BOUND,
    }
}

#[unsafe(no_mangle)]
#[tactic(auto, using(crate::proofs::Lent::classes_again, crate::proofs::Lent::speeds_again))]
pub extern "C" fn furqyzet_bound(
    frame: &[u8],
    classes: &mut [ClassCell],
    speeds: &mut [SpeedCell],
    make: u8,
    sample: u64,
) -> u32
    ensures binds { BindsWords frame.now make (class_cells_of classes.old) (speed_cells_of speeds.old) sample result }
    ensures same_classes { class_cells_of classes.new ≡ class_cells_of classes.old }
    ensures same_speeds { speed_cells_of speeds.new ≡ speed_cells_of speeds.old }
{
    let classes = class_cells(classes).0;
    let speeds = speed_cells(speeds).0;
    bound_in(frame, classes, speeds, make, sample)
}

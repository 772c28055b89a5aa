// What lies below a sample's floor.
ghost use Rattle.std.specs.Prelude.{◌≡◌};
ghost use Rattle.frame.specs.Views.{path_of};
ghost use Rattle.furqyzet_c.specs.Cells.{class_cells_of, speed_cells_of};
ghost use Rattle.furqyzet_c.specs.Clashing.{make_number, most_of, clash_words, ClashesOf, ClashesWords};

use super::cells::{ClassCell, SpeedCell};
use super::lending::{class_cells, speed_cells};
use super::naming::bound_number;
use binding::{Clash, clash};
use frame::{PathFrame, read};
use grade::{Cell, Class, Speed};
use runs::Make;

// A clash in the words that C reads.
#[derive(Clone, Copy, Debug, PartialEq, Eq)]
#[repr(C)]
pub struct ClashWords {
    // What the bound allows; -1 where nothing fits.
    pub most: i64,
    pub make: u32,
    pub bound: u32,
    pub floor: u32,
    // 1 where there is a clash; else 0, as all the rest.
    pub is_there: u32,
}

fn make_number(make: Make) -> u32
    ensures { result ≡ make_number make }
{
    match make {
        Make::Classes => 0,
        Make::Speeds => 1,
    }
}

// What stands for nothing that fits.
const NOTHING_FITS: i64 = -1;

fn most_of(most: Option<u32>) -> i64
    ensures { result ≡ most_of most }
{
    match most {
        Some(most) => most as i64,
        None => NOTHING_FITS,
    }
}

fn clash_words(found: Option<Clash>) -> ClashWords
    ensures { result ≡ clash_words found }
{
    match found {
        Some(clash) => ClashWords {
            most: most_of(clash.most),
            make: make_number(clash.make),
            bound: bound_number(clash.bound),
            floor: clash.floor,
            is_there: 1,
        },
        None => ClashWords {
            most: 0,
            make: 0,
            bound: 0,
            floor: 0,
            is_there: 0,
        },
    }
}

// The clash of a sample in memories, whose cells past the samples count for nothing.
fn clash_of(
    frame: PathFrame<'_>,
    classes: &[Cell<Class>],
    speeds: &[Cell<Speed>],
    sample: u64,
) -> ClashWords
    ensures { ClashesOf (path_of frame.entry.bytes.now) classes.now speeds.now sample result }
{
    let n = frame.header().samples as usize;
    if classes.len() < n || speeds.len() < n {
        return clash_words(None);
    }
    clash_words(clash(frame, classes, speeds, sample as usize))
}

// The same of a frame that is read first.
fn clash_in(
    bytes: &[u8],
    classes: &[Cell<Class>],
    speeds: &[Cell<Speed>],
    sample: u64,
) -> ClashWords
    ensures { ClashesWords bytes.now classes.now speeds.now sample result }
{
    match read(bytes) {
        Ok(_) => clash_of(PathFrame::over(bytes), classes, speeds, sample),
        Err(_) => clash_words(None),
    }
}

#[unsafe(no_mangle)]
#[tactic(auto, using(crate::proofs::Lent::classes_again, crate::proofs::Lent::speeds_again))]
pub extern "C" fn furqyzet_clash(
    frame: &[u8],
    classes: &mut [ClassCell],
    speeds: &mut [SpeedCell],
    sample: u64,
    found: &mut ClashWords,
)
    ensures clashes { ClashesWords frame.now (class_cells_of classes.old) (speed_cells_of speeds.old) sample found.new }
    ensures same_classes { class_cells_of classes.new ≡ class_cells_of classes.old }
    ensures same_speeds { speed_cells_of speeds.new ≡ speed_cells_of speeds.old }
{
    let classes = class_cells(classes).0;
    let speeds = speed_cells(speeds).0;
    *found = clash_in(frame, classes, speeds, sample);
}

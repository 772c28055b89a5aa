// The bound that lies below a floor.
ghost use Rattle.frame.specs.Views.{path_of};
ghost use Rattle.binding.specs.Binding.{sheets_on};
ghost use Rattle.binding.specs.Clashing.{Clashes};

use super::bound::Clash;
use super::place::first_clash;
use super::reading::of_samples;
use super::speeds::SpeedPlace;
use frame::PathFrame;
use grade::{Cell, Class, Speed};

/// The first bound of a sample that allows less than its floor, its class before its squared speed. Nothing where none
/// does, or where there is no such sample; cells past the path's samples count for nothing.
pub fn clash(
    frame: PathFrame<'_>,
    classes: &[Cell<Class>],
    speeds: &[Cell<Speed>],
    at: usize,
) -> Option<Clash>
    ensures { Clashes (path_of frame.entry.bytes.now) (sheets_on (path_of frame.entry.bytes.now) classes.now speeds.now) at result }
{
    let classes_of_path = of_samples(frame, classes);
    let speeds_of_path = of_samples(frame, speeds);
    let place = SpeedPlace::find(frame, classes_of_path, speeds_of_path, at)?;
    first_clash(place.of_class, place)
}

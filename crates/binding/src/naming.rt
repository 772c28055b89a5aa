// The binding constraint of a sample: the first of its bounds that its value reaches.
ghost use Rattle.std.specs.Prelude.{List, take};
ghost use Rattle.grade.specs.declared.cell.Cell.{Cell};
ghost use Rattle.grade.specs.declared.speed.Speed.{Speed};
ghost use Rattle.runs.specs.declared.stage.Make.TheVariants.{Classes, Speeds};
ghost use Rattle.frame.specs.Views.{path_of};
ghost use Rattle.job.specs.Whole.{sheets_of};
ghost use Rattle.binding.specs.Binding.{Binds, sheets_on};

use super::bound::Bound;
use super::classes::ClassPlace;
use super::place::binding;
use super::reading::of_samples;
use super::speeds::SpeedPlace;
use frame::PathFrame;
use grade::{Cell, Class, Speed};

/// The bound that holds a sample's class where it is: the first of cap, ramp before and ramp after that allows just it.
/// Nothing where none does, or where there is no such sample; cells past the path's samples count for nothing, here and below.
pub fn class_bound(frame: PathFrame<'_>, classes: &[Cell<Class>], at: usize) -> Option<Bound>
    ensures { (speeds : List (Cell Speed)) → Binds (path_of frame.entry.bytes.now) (sheets_of (take (path_of frame.entry.bytes.now).header.samples classes.now) speeds) Classes at result }
{
    let classes_of_path = of_samples(frame, classes);
    binding(ClassPlace::find(frame, classes_of_path, at)?)
}

/// The bound that holds a sample's squared speed where it is: the first of cap, class, ramp before, ramp after, average
/// and the torque rows by number that allows just it. Nothing where none does, or where there is no such sample.
pub fn speed_bound(
    frame: PathFrame<'_>,
    classes: &[Cell<Class>],
    speeds: &[Cell<Speed>],
    at: usize,
) -> Option<Bound>
    ensures { Binds (path_of frame.entry.bytes.now) (sheets_on (path_of frame.entry.bytes.now) classes.now speeds.now) Speeds at result }
{
    let classes_of_path = of_samples(frame, classes);
    let speeds_of_path = of_samples(frame, speeds);
    binding(SpeedPlace::find(frame, classes_of_path, speeds_of_path, at)?)
}

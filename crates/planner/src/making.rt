// Making a job of a frame: after the yes to the questions, and in one call with them.
ghost use Rattle.std.specs.Prelude.{◌≡◌, ◌≤◌, length};
ghost use Rattle.frame.specs.Views.{path_of};
ghost use Rattle.planner.specs.Starts.{start_from};
ghost use Rattle.planner.specs.Making.{Granted, MadeAs, MadeFrom, MakesFrom};

use super::asking::ask_sizes;
use super::fault::MakeFault;
use super::filling::fill;
use frame::PathFrame;
use grade::{Cell, Class, Speed};
use job::Job;
use runs::Samples;

// How many samples a frame has.
pub(crate) fn samples(frame: PathFrame<'_>) -> Samples
    ensures { result.count ≡ (path_of frame.entry.bytes.now).header.samples }
{
    Samples {
        count: frame.header().samples as usize,
    }
}

// A job of an accepted frame, in memories that hold its samples.
fn make_accepted(
    frame: PathFrame<'_>,
    classes: &mut [Cell<Class>],
    speeds: &mut [Cell<Speed>],
) -> Job
    requires { ((path_of frame.bytes.now).header.samples ≤ length classes.old) × ((path_of frame.bytes.now).header.samples ≤ length speeds.old) }
    ensures { MadeAs (path_of frame.entry.bytes.now).header.samples (start_from (path_of frame.entry.bytes.now)) classes.old classes.new speeds.old speeds.new result }
{
    fill(frame, classes);
    fill(frame, speeds);
    Job::make(classes, speeds, samples(frame)).unwrap()
}

/// Makes the job of a frame, after `ask` said yes to it beside these memories. Values begin at the caps; a floor above
/// its cap makes the job impossible, classes first, in sample order; memory past the samples is untouched.
pub fn make(bytes: &[u8], classes: &mut [Cell<Class>], speeds: &mut [Cell<Speed>]) -> Job
    requires { Granted bytes.now (length classes.old) (length speeds.old) }
    ensures { MadeFrom bytes.now classes.old classes.new speeds.old speeds.new result }
{
    make_accepted(PathFrame::over(bytes), classes, speeds)
}

/// Asks and makes in one call; a refusal changes nothing.
pub fn make_or_refuse(
    bytes: &[u8],
    classes: &mut [Cell<Class>],
    speeds: &mut [Cell<Speed>],
) -> Result<Job, MakeFault>
    ensures { MakesFrom bytes.now classes.old classes.new speeds.old speeds.new result }
{
    ask_sizes(bytes, classes.len(), speeds.len())?;
    Ok(make(bytes, classes, speeds))
}

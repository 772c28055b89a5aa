// Whole plans, from a frame's bytes on.
ghost use Rattle.std.specs.Prelude.{length};
ghost use Rattle.frame.specs.Views.{path_of};
ghost use Rattle.sequence.specs.Running.{placed};
ghost use Rattle.sources.specs.Sources.{class_number, speed_number};
ghost use Rattle.planner.specs.Planning.{PlansFrom};

use super::asking::ask_sizes;
use super::fault::MakeFault;
use super::making::make_or_refuse;
use frame::PathFrame;
use grade::{Cell, Class, Speed};
use job::{Job, Limits};
use limit::Limit;
use motion::{Offsets, Rows, Steps};
use runs::{Answer, Call};
use sequence::run;
use sources::{class_limit, speed_limit};

/// Makes a job of a frame and runs the calls on it under any two lawful limits; the calls beyond the places for their
/// answers are not made. A refusal changes nothing.
pub fn plan_under<C: Limit<Class>, S: Limit<Speed>>(
    bytes: &[u8],
    classes: &mut [Cell<Class>],
    speeds: &mut [Cell<Speed>],
    limits: &Limits<'_, C, S>,
    calls: &[Call],
    answers: &mut [Answer],
) -> Result<Job, MakeFault>
    ensures { PlansFrom bytes.now (C.Limit.number limits.now.classes.now) (S.Limit.number limits.now.speeds.now) (placed calls.now answers.old) classes.old classes.new speeds.old speeds.new answers.old answers.new result }
{
    let mut job = make_or_refuse(bytes, classes, speeds)?;
    // It refuses only memories too short for the job, and this job was made in them.
    let _ = run(&mut job, classes, speeds, limits, calls, answers);
    Ok(job)
}

/// Makes a job of a frame and runs the calls on it under the frame's own limits; the calls beyond the places for their
/// answers are not made. A refusal changes nothing.
pub fn plan(
    bytes: &[u8],
    classes: &mut [Cell<Class>],
    speeds: &mut [Cell<Speed>],
    calls: &[Call],
    answers: &mut [Answer],
) -> Result<Job, MakeFault>
    ensures { PlansFrom bytes.now (class_number (path_of bytes.now)) (speed_number (path_of bytes.now)) (placed calls.now answers.old) classes.old classes.new speeds.old speeds.new answers.old answers.new result }
{
    ask_sizes(bytes, classes.len(), speeds.len())?;
    let frame = PathFrame::over(bytes);
    let class_limit = class_limit(frame);
    let speed_limit = speed_limit(frame);
    let limits = Limits {
        classes: &class_limit,
        speeds: &speed_limit,
    };
    plan_under(bytes, classes, speeds, &limits, calls, answers)
}

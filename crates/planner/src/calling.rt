// One call on a frame's job, under the frame's own limits: what a bus cycle makes.
ghost use Rattle.std.specs.Prelude.{[], ◌∷◌};
ghost use Rattle.frame.specs.Views.{path_of};
ghost use Rattle.job.specs.Holding.{held};
ghost use Rattle.job.specs.Calling.{Does, Lawful};
ghost use Rattle.sources.specs.Sources.{class_number, speed_number};

use frame::PathFrame;
use grade::{Cell, Class, Speed};
use job::{Job, Limits};
use limit::Limit;
use runs::{Answer, Call};
use sequence::make_call;
use sources::{class_limit, speed_limit, speed_limit_without_rows};

// One call under the frame's class limit and a speed limit.
pub(crate) fn call_under<S: Limit<Speed>>(
    frame: PathFrame<'_>,
    job: &mut Job,
    classes: &mut [Cell<Class>],
    speeds: &mut [Cell<Speed>],
    speed_limit: &S,
    call: Call,
) -> Answer
    ensures does { Does (class_number (path_of frame.entry.bytes.now)) (S.Limit.number speed_limit.now) call (held job.old classes.old speeds.old) (held job.new classes.new speeds.new) result }
    ensures law { Lawful (class_number (path_of frame.entry.bytes.now)) (S.Limit.number speed_limit.now) (call ∷ []) (held job.old classes.old speeds.old) (held job.new classes.new speeds.new) }
{
    let class_limit = class_limit(frame);
    let limits = Limits {
        classes: &class_limit,
        speeds: speed_limit,
    };
    make_call(job, classes, speeds, &limits, call)
}

/// Makes one call on a job under the frame's own limits and gives its answer; a refused call changes nothing.
pub fn call(
    frame: PathFrame<'_>,
    job: &mut Job,
    classes: &mut [Cell<Class>],
    speeds: &mut [Cell<Speed>],
    call: Call,
) -> Answer
    ensures does { Does (class_number (path_of frame.entry.bytes.now)) (speed_number (path_of frame.entry.bytes.now)) call (held job.old classes.old speeds.old) (held job.new classes.new speeds.new) result }
    ensures law { Lawful (class_number (path_of frame.entry.bytes.now)) (speed_number (path_of frame.entry.bytes.now)) (call ∷ []) (held job.old classes.old speeds.old) (held job.new classes.new speeds.new) }
{
    if frame.header().rows == 0 {
        let speed_limit = speed_limit_without_rows(frame);
        return call_under(frame, job, classes, speeds, &speed_limit, call);
    }
    let speed_limit = speed_limit(frame);
    call_under(frame, job, classes, speeds, &speed_limit, call)
}

// The same call on a prepared frame's job: its speed limit is worked out already.
ghost use Rattle.std.specs.Prelude.{[], ◌∷◌};
ghost use Rattle.frame.specs.Views.{path_of};
ghost use Rattle.job.specs.Holding.{held};
ghost use Rattle.job.specs.Calling.{Does, Lawful};
ghost use Rattle.sources.specs.Sources.{class_number, speed_number};

use super::calling::call_under;
use grade::{Cell, Class, Speed};
use job::Job;
use prepared::{Prepared, speed_limit, speed_limit_without_rows};
use runs::{Answer, Call};

/// Makes one call on a job under the limits of a prepared frame and gives its answer, as `call` does on the frame itself; a
/// refused call changes nothing.
pub fn call_prepared(
    prepared: Prepared<'_>,
    job: &mut Job,
    classes: &mut [Cell<Class>],
    speeds: &mut [Cell<Speed>],
    call: Call,
) -> Answer
    ensures does { Does (class_number (path_of prepared.entry.frame.bytes.now)) (speed_number (path_of prepared.entry.frame.bytes.now)) call (held job.old classes.old speeds.old) (held job.new classes.new speeds.new) result }
    ensures law { Lawful (class_number (path_of prepared.entry.frame.bytes.now)) (speed_number (path_of prepared.entry.frame.bytes.now)) (call ∷ []) (held job.old classes.old speeds.old) (held job.new classes.new speeds.new) }
{
    if prepared.frame.header().rows == 0 {
        let speed_limit = speed_limit_without_rows(prepared);
        return call_under(prepared.frame, job, classes, speeds, &speed_limit, call);
    }
    let speed_limit = speed_limit(prepared);
    call_under(prepared.frame, job, classes, speeds, &speed_limit, call)
}

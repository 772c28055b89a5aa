// One call, as a sequence of its own: what it does, and the law.
ghost use Rattle.std.specs.Prelude.{[], ◌∷◌};
ghost use Rattle.job.specs.Holding.{held};
ghost use Rattle.job.specs.Calling.{Does, Lawful};

use super::performing::perform;
use grade::{Cell, Class, Speed};
use job::{Job, Limits};
use limit::{Limit, lawful};
use runs::{Answer, Call};

// Makes one call and gives its answer.
pub fn make_call<C: Limit<Class>, S: Limit<Speed>>(
    job: &mut Job,
    classes: &mut [Cell<Class>],
    speeds: &mut [Cell<Speed>],
    limits: &Limits<'_, C, S>,
    call: Call,
) -> Answer
    ensures does { Does (C.Limit.number limits.now.classes.now) (S.Limit.number limits.now.speeds.now) call (held job.old classes.old speeds.old) (held job.new classes.new speeds.new) result }
    ensures law { Lawful (C.Limit.number limits.now.classes.now) (S.Limit.number limits.now.speeds.now) (call ∷ []) (held job.old classes.old speeds.old) (held job.new classes.new speeds.new) }
{
    lawful(limits.classes);
    lawful(limits.speeds);
    perform(job, classes, speeds, limits, call)
}

// A call as a value: what its method returns becomes an answer.
ghost use Rattle.job.specs.Holding.{held};
ghost use Rattle.job.specs.Calling.{Does};

use grade::{Cell, Class, Speed};
use job::{Job, Limits};
use limit::Limit;
use runs::{Answer, Call, Make, Reply};

// A call is a value that can be kept and repeated, so what it does is a match and no closure.
pub fn perform<C: Limit<Class>, S: Limit<Speed>>(
    job: &mut Job,
    classes: &mut [Cell<Class>],
    speeds: &mut [Cell<Speed>],
    limits: &Limits<'_, C, S>,
    call: Call,
) -> Answer
    ensures { Does (C.Limit.number limits.now.classes.now) (S.Limit.number limits.now.speeds.now) call (held job.old classes.old speeds.old) (held job.new classes.new speeds.new) result }
{
    match call {
        Call::Advance(allowance) => job
            .advance(classes, speeds, limits, allowance)
            .map(Reply::Advanced),
        Call::Cut(Make::Classes, sample, value) => job
            .class_cut(classes, speeds, sample, value)
            .and(Ok(Reply::Done)),
        Call::Cut(Make::Speeds, sample, value) => job
            .speed_cut(classes, speeds, sample, value)
            .and(Ok(Reply::Done)),
        Call::Lift(Make::Classes, sample, value) => job
            .class_lift(classes, speeds, sample, value)
            .and(Ok(Reply::Done)),
        Call::Lift(Make::Speeds, sample, value) => job
            .speed_lift(classes, speeds, sample, value)
            .and(Ok(Reply::Done)),
        Call::Look(sample) => job.look(classes, speeds, sample).map(Reply::Seen),
    }
}

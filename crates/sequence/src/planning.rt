// A whole plan: a job made of its memory, and a sequence of calls on it.
ghost use Rattle.sequence.specs.Running.{placed};
ghost use Rattle.sequence.specs.Planning.{Plans};

use super::running::run;
use grade::{Cell, Class, Speed};
use job::{Job, Limits};
use limit::Limit;
use runs::{Answer, Call, Fault, Samples};

// Makes a job from the caps and floors in the memory and runs the calls on it; the calls beyond the places for their
// answers are not made.
pub fn plan<C: Limit<Class>, S: Limit<Speed>>(
    samples: Samples,
    classes: &mut [Cell<Class>],
    speeds: &mut [Cell<Speed>],
    limits: &Limits<'_, C, S>,
    calls: &[Call],
    answers: &mut [Answer],
) -> Result<Job, Fault>
    ensures { Plans (C.Limit.number limits.now.classes.now) (S.Limit.number limits.now.speeds.now) samples (placed calls.now answers.old) classes.old classes.new speeds.old speeds.new answers.old answers.new result }
{
    let mut job = Job::make(classes, speeds, samples)?;
    // It refuses only memories too short for the job, and this job was made in them.
    let _ = run(&mut job, classes, speeds, limits, calls, answers);
    Ok(job)
}

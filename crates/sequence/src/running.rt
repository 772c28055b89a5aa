// Sequences of calls.
ghost use Rattle.job.specs.Holding.{held};
ghost use Rattle.job.specs.Calling.{Lawful};
ghost use Rattle.sequence.specs.Running.{Runs, placed};

use super::performing::perform;
use grade::{Cell, Class, Speed};
use job::{Job, Limits};
use limit::{Limit, lawful};
use runs::{Answer, Call, Fault};

// Makes the calls in order and writes the answer of each into its place; says how many were made. A call for whose
// answer there is no place is not made. Where a memory is too short for the job, none is. The answers are written into the
// caller's memory, beside calls that are only read, since a library has no heap to make them in.
pub fn run<C: Limit<Class>, S: Limit<Speed>>(
    job: &mut Job,
    classes: &mut [Cell<Class>],
    speeds: &mut [Cell<Speed>],
    limits: &Limits<'_, C, S>,
    calls: &[Call],
    answers: &mut [Answer],
) -> Result<usize, Fault>
    ensures runs { Runs (C.Limit.number limits.now.classes.now) (S.Limit.number limits.now.speeds.now) (placed calls.now answers.old) (held job.old classes.old speeds.old) (held job.new classes.new speeds.new) answers.old answers.new result }
    ensures law { Lawful (C.Limit.number limits.now.classes.now) (S.Limit.number limits.now.speeds.now) (placed calls.now answers.old) (held job.old classes.old speeds.old) (held job.new classes.new speeds.new) }
{
    lawful(limits.classes);
    lawful(limits.speeds);
    job.ask_room(classes.len(), speeds.len())?;
    let placed = &calls[..calls.len().min(answers.len())];
    // Not zipped with `answers.iter_mut()`: of what such a zip has still to change no invariant can speak.
    for (at, call) in placed.iter().enumerate() {
        answers[at] = perform(job, classes, speeds, limits, *call);
    }
    Ok(placed.len())
}

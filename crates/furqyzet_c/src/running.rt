// Sequences of calls on a job.
ghost use Rattle.std.specs.Prelude.{◌≡◌};
ghost use Rattle.frame.specs.Views.{path_of};
ghost use Rattle.sources.specs.Sources.{class_number, speed_number};
ghost use Rattle.runs.specs.Calls.{granted};
ghost use Rattle.job.specs.Holding.{held, room};
ghost use Rattle.furqyzet_c.specs.Calls.{call_in};
ghost use Rattle.furqyzet_c.specs.Cells.{class_cells_of, speed_cells_of};
ghost use Rattle.furqyzet_c.specs.Performing.{ActsIn, Performs, RunsRead, RunsWords, memory, placed};

use super::answer_words::{AnswerWords, NO_CALL};
use super::call_words::CallWords;
use super::cells::{ClassCell, SpeedCell};
use super::job_words::JobWords;
use super::lending::{class_cells, speed_cells};
use super::limits::lawful_limits;
use super::refusal_words::{NO_JOB, RefusalWords};
use frame::{Layer, PathFrame, Refusal, read};
use grade::{Cell, Class, Speed};
use job::Job;

// The words of one call's answer; words that are no call's change nothing.
fn perform_call(
    frame: PathFrame<'_>,
    job: &mut Job,
    classes: &mut [Cell<Class>],
    speeds: &mut [Cell<Speed>],
    words: CallWords,
) -> AnswerWords
    ensures { ActsIn (class_number (path_of frame.entry.bytes.now)) (speed_number (path_of frame.entry.bytes.now)) (call_in words) (held job.old classes.old speeds.old) (held job.new classes.new speeds.new) result }
{
    let Some(call) = words.call() else {
        return AnswerWords::of_number(NO_CALL, job.stage());
    };
    let answer = planner::call(frame, job, classes, speeds, call);
    AnswerWords::of(answer, job.stage())
}

// The calls for whose answers there is a place, in order.
fn perform_calls(
    frame: PathFrame<'_>,
    job: &mut Job,
    classes: &mut [Cell<Class>],
    speeds: &mut [Cell<Speed>],
    calls: &[CallWords],
    answers: &mut [AnswerWords],
)
    requires { room (held job.old classes.old speeds.old) ≡ granted }
    ensures { Performs (class_number (path_of frame.entry.bytes.now)) (speed_number (path_of frame.entry.bytes.now)) (placed calls.now answers.old) (held job.old classes.old speeds.old) (held job.new classes.new speeds.new) answers.old answers.new }
{
    lawful_limits(frame);
    let placed = &calls[..calls.len().min(answers.len())];
    for (at, words) in placed.iter().enumerate() {
        answers[at] = perform_call(frame, job, classes, speeds, *words);
    }
}

// The calls on the job whose words they are, if the memories hold its samples.
fn run_read(
    frame: PathFrame<'_>,
    classes: &mut [Cell<Class>],
    speeds: &mut [Cell<Speed>],
    words: &mut JobWords,
    calls: &[CallWords],
    answers: &mut [AnswerWords],
) -> RefusalWords
    ensures { RunsRead frame.entry.bytes.now calls.now (memory words.old classes.old speeds.old) (memory words.new classes.new speeds.new) answers.old answers.new result }
{
    let Some(mut job) = words.job() else {
        return RefusalWords::of_number(NO_JOB);
    };
    if let Err(fault) = job.ask_room(classes.len(), speeds.len()) {
        return RefusalWords::of(Refusal {
            layer: Layer::Memory,
            number: fault.number(),
            place: 0,
        });
    }
    perform_calls(frame, &mut job, classes, speeds, calls, answers);
    *words = JobWords::of(&job);
    RefusalWords::of_number(0)
}

// The same of a frame that is read first.
fn run_words(
    bytes: &[u8],
    classes: &mut [Cell<Class>],
    speeds: &mut [Cell<Speed>],
    words: &mut JobWords,
    calls: &[CallWords],
    answers: &mut [AnswerWords],
) -> RefusalWords
    ensures { RunsWords bytes.now calls.now (memory words.old classes.old speeds.old) (memory words.new classes.new speeds.new) answers.old answers.new result }
{
    match read(bytes) {
        Ok(_) => {
            let frame = PathFrame::over(bytes);
            run_read(frame, classes, speeds, words, calls, answers)
        }
        Err(fault) => RefusalWords::of(fault.refusal()),
    }
}

#[unsafe(no_mangle)]
#[tactic(auto, using(crate::proofs::Lent::classes_again, crate::proofs::Lent::speeds_again))]
pub extern "C" fn furqyzet_run(
    frame: &[u8],
    classes: &mut [ClassCell],
    speeds: &mut [SpeedCell],
    job: &mut JobWords,
    calls: &[CallWords],
    answers: &mut [AnswerWords],
    refusal: &mut RefusalWords,
)
    ensures { RunsWords frame.now calls.now (memory job.old (class_cells_of classes.old) (speed_cells_of speeds.old)) (memory job.new (class_cells_of classes.new) (speed_cells_of speeds.new)) answers.old answers.new refusal.new }
{
    *refusal = run_words(
        frame,
        class_cells(classes).0,
        speed_cells(speeds).0,
        job,
        calls,
        answers,
    );
}

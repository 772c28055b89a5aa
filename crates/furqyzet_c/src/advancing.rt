// Advancing a job within a bus cycle.
ghost use Rattle.std.specs.Prelude.{◌≡◌, true};
ghost use Rattle.frame.specs.Paths.{accepted};
ghost use Rattle.frame.specs.Views.{path_of};
ghost use Rattle.sources.specs.Sources.{class_number, speed_number};
ghost use Rattle.runs.specs.declared.call.Call.TheVariants.{Advance};
ghost use Rattle.furqyzet_c.specs.Cells.{class_cells_of, speed_cells_of};
ghost use Rattle.furqyzet_c.specs.Performing.{ActsWords, memory};

use super::answer_words::AnswerWords;
use super::cells::{ClassCell, SpeedCell};
use super::job_frame::JobFrame;
use super::job_words::JobWords;
use super::lending::{class_cells, speed_cells};
use frame::PathFrame;
use grade::{Cell, Class, Speed};
use runs::Call;

// One call on the job whose words they are.
pub(crate) fn perform_words<F: JobFrame>(
    frame: F,
    classes: &mut [Cell<Class>],
    speeds: &mut [Cell<Speed>],
    words: &mut JobWords,
    call: Call,
) -> AnswerWords
    ensures { ActsWords (class_number (F.JobFrame.path frame)) (speed_number (F.JobFrame.path frame)) call (memory words.old classes.old speeds.old) (memory words.new classes.new speeds.new) result }
{
    let Some(mut job) = words.job() else {
        return AnswerWords::of_no_job(*words);
    };
    let answer = frame.call(&mut job, classes, speeds, call);
    *words = JobWords::of(&job);
    AnswerWords::of(answer, job.stage())
}

#[unsafe(no_mangle)]
#[tactic(auto, using(crate::proofs::Lent::classes_again, crate::proofs::Lent::speeds_again))]
pub extern "C" fn furqyzet_advance(
    frame: &[u8],
    classes: &mut [ClassCell],
    speeds: &mut [SpeedCell],
    job: &mut JobWords,
    allowance: u64,
    answer: &mut AnswerWords,
)
    requires { accepted frame.now ≡ true }
    ensures { ActsWords (class_number (path_of frame.now)) (speed_number (path_of frame.now)) (Advance allowance) (memory job.old (class_cells_of classes.old) (speed_cells_of speeds.old)) (memory job.new (class_cells_of classes.new) (speed_cells_of speeds.new)) answer.new }
{
    *answer = perform_words(
        PathFrame::over(frame),
        class_cells(classes).0,
        speed_cells(speeds).0,
        job,
        Call::Advance(allowance),
    );
}

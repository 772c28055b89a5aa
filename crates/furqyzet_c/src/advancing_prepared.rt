// Advancing a job within a bus cycle, under its prepared frame.
ghost use Rattle.std.specs.Prelude.{◌≡◌, true};
ghost use Rattle.frame.specs.Paths.{accepted};
ghost use Rattle.frame.specs.Views.{path_of};
ghost use Rattle.prepared.specs.Lists.{sample_bounds_of, row_bounds_of, Begins};
ghost use Rattle.sources.specs.Sources.{class_number, speed_number};
ghost use Rattle.runs.specs.declared.call.Call.TheVariants.{Advance};
ghost use Rattle.furqyzet_c.specs.Cells.{class_cells_of, speed_cells_of};
ghost use Rattle.furqyzet_c.specs.Performing.{ActsWords, memory};

use super::advancing::perform_words;
use super::answer_words::AnswerWords;
use super::cells::{ClassCell, SpeedCell};
use super::job_words::JobWords;
use super::lending::{class_cells, speed_cells};
use frame::PathFrame;
use prepared::{Prepared, RowBounds, SampleBounds};
use runs::Call;

#[unsafe(no_mangle)]
#[tactic(auto, using(crate::proofs::Lent::classes_again, crate::proofs::Lent::speeds_again))]
pub extern "C" fn furqyzet_advance_prepared(
    frame: &[u8],
    samples: &[SampleBounds],
    rows: &[RowBounds],
    classes: &mut [ClassCell],
    speeds: &mut [SpeedCell],
    job: &mut JobWords,
    allowance: u64,
    answer: &mut AnswerWords,
)
    requires frame { accepted frame.now ≡ true }
    requires samples { Begins (sample_bounds_of (path_of frame.now)) samples.now }
    requires rows { Begins (row_bounds_of (path_of frame.now)) rows.now }
    ensures { ActsWords (class_number (path_of frame.now)) (speed_number (path_of frame.now)) (Advance allowance) (memory job.old (class_cells_of classes.old) (speed_cells_of speeds.old)) (memory job.new (class_cells_of classes.new) (speed_cells_of speeds.new)) answer.new }
{
    *answer = perform_words(
        Prepared::over(PathFrame::over(frame), samples, rows),
        class_cells(classes).0,
        speed_cells(speeds).0,
        job,
        Call::Advance(allowance),
    );
}

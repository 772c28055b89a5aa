// The allowance that suffices to end a job's work.
ghost use Rattle.std.specs.Prelude.{◌≡◌};
ghost use Rattle.furqyzet_c.specs.Allowing.{AllowsWords};
ghost use Rattle.furqyzet_c.specs.Cells.{class_cells_of, speed_cells_of};

use super::cells::{ClassCell, SpeedCell};
use super::job_words::JobWords;
use super::lending::{class_cells, speed_cells};
use grade::{Cell, Class, Speed};

fn allowance_of(words: JobWords, classes: &[Cell<Class>], speeds: &[Cell<Speed>]) -> u64
    ensures { AllowsWords words classes.now speeds.now result }
{
    let Some(job) = words.job() else {
        return 0;
    };
    job.sufficient_allowance(classes, speeds).unwrap_or(0)
}

#[unsafe(no_mangle)]
#[tactic(auto, using(crate::proofs::Lent::classes_again, crate::proofs::Lent::speeds_again))]
pub extern "C" fn furqyzet_sufficient(
    classes: &mut [ClassCell],
    speeds: &mut [SpeedCell],
    job: &JobWords,
) -> u64
    ensures allows { AllowsWords job.now (class_cells_of classes.old) (speed_cells_of speeds.old) result }
    ensures same_classes { class_cells_of classes.new ≡ class_cells_of classes.old }
    ensures same_speeds { speed_cells_of speeds.new ≡ speed_cells_of speeds.old }
{
    let classes = class_cells(classes).0;
    let speeds = speed_cells(speeds).0;
    allowance_of(*job, classes, speeds)
}

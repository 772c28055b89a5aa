// Making a job of a frame.
ghost use Rattle.furqyzet_c.specs.Cells.{class_cells_of, speed_cells_of};
ghost use Rattle.furqyzet_c.specs.Making.{MakesWords};

use super::cells::{ClassCell, SpeedCell};
use super::job_words::JobWords;
use super::lending::{class_cells, speed_cells};
use super::refusal_words::RefusalWords;
use grade::{Cell, Class, Speed};
use planner::make_or_refuse;

fn make_words(
    frame: &[u8],
    classes: &mut [Cell<Class>],
    speeds: &mut [Cell<Speed>],
    job: &mut JobWords,
) -> RefusalWords
    ensures { MakesWords frame.now classes.old classes.new speeds.old speeds.new job.old job.new result }
{
    match make_or_refuse(frame, classes, speeds) {
        Ok(made) => {
            *job = JobWords::of(&made);
            RefusalWords::of_number(0)
        }
        Err(fault) => RefusalWords::of(fault.refusal()),
    }
}

#[unsafe(no_mangle)]
#[tactic(auto, using(crate::proofs::Lent::classes_again, crate::proofs::Lent::speeds_again))]
pub extern "C" fn furqyzet_make(
    frame: &[u8],
    classes: &mut [ClassCell],
    speeds: &mut [SpeedCell],
    job: &mut JobWords,
    refusal: &mut RefusalWords,
)
    ensures { MakesWords frame.now (class_cells_of classes.old) (class_cells_of classes.new) (speed_cells_of speeds.old) (speed_cells_of speeds.new) job.old job.new refusal.new }
{
    *refusal = make_words(frame, class_cells(classes).0, speed_cells(speeds).0, job);
}

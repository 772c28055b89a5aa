// Releasing a settled job and writing its setpoint frame.
ghost use Rattle.std.specs.Prelude.{◌≡◌};
ghost use Rattle.furqyzet_c.specs.Cells.{class_cells_of, speed_cells_of};
ghost use Rattle.furqyzet_c.specs.Sending.{SendsWords};

use super::cells::{ClassCell, SpeedCell};
use super::job_words::{JobWords, NO_WORDS};
use super::lending::{class_cells, speed_cells};
use super::refusal_words::{NO_JOB, RefusalWords};
use grade::{Cell, Class, Speed};
use setpoint::release_setpoints;

fn send_words(
    words: &mut JobWords,
    classes: &[Cell<Class>],
    speeds: &[Cell<Speed>],
    out: &mut [u8],
    refusal: &mut RefusalWords,
) -> u64
    ensures { SendsWords words.old words.new classes.now speeds.now out.old out.new result refusal.new }
{
    let Some(job) = words.job() else {
        *refusal = RefusalWords::of_number(NO_JOB);
        return 0;
    };
    match release_setpoints(job, classes, speeds, out) {
        Ok(size) => {
            *words = NO_WORDS;
            *refusal = RefusalWords::of_number(0);
            size as u64
        }
        Err(unreleased) => {
            *refusal = RefusalWords::of_number(unreleased.fault.number());
            0
        }
    }
}

#[unsafe(no_mangle)]
#[tactic(auto, using(crate::proofs::Lent::classes_again, crate::proofs::Lent::speeds_again))]
pub extern "C" fn furqyzet_setpoints(
    job: &mut JobWords,
    classes: &mut [ClassCell],
    speeds: &mut [SpeedCell],
    out: &mut [u8],
    refusal: &mut RefusalWords,
) -> u64
    ensures sends { SendsWords job.old job.new (class_cells_of classes.old) (speed_cells_of speeds.old) out.old out.new result refusal.new }
    ensures same_classes { class_cells_of classes.new ≡ class_cells_of classes.old }
    ensures same_speeds { speed_cells_of speeds.new ≡ speed_cells_of speeds.old }
{
    let classes = class_cells(classes).0;
    let speeds = speed_cells(speeds).0;
    send_words(job, classes, speeds, out, refusal)
}

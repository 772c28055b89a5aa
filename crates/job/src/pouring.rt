// The pour: each speed falls to its class's entry.
ghost use Rattle.std.specs.Prelude.{◌≡◌, length};
ghost use Rattle.runs.specs.Jobs.{job, fresh};
ghost use Rattle.runs.specs.Evaluations.{poured};
ghost use Rattle.job.specs.Table.{entry};
ghost use Rattle.job.specs.Whole.{sheets_of};

use super::table::top_speed;
use grade::{Cell, Class, Grade, Speed, lower};
use runs::{Make, Stage};

pub fn pour(classes: &[Cell<Class>], speeds: &mut [Cell<Speed>]) -> Stage
    requires { length classes.now ≡ length speeds.old }
    ensures { job result fresh (sheets_of classes.now speeds.new) ≡ poured entry (length speeds.old) 0 (sheets_of classes.now speeds.old) }
{
    // Not zipped with the classes: of what a zip with `iter_mut` has still to change no invariant can speak.
    for (at, speed) in speeds.iter_mut().enumerate() {
        let top = top_speed(classes[at].value);
        if top.rank() < speed.floor.rank() {
            return Stage::Impossible(at);
        }
        speed.value = lower(speed.value, top);
    }
    Stage::Working(Make::Speeds)
}

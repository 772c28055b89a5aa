// One step of a job: an evaluation, and what follows from it.
ghost use Rattle.std.specs.Prelude.{◌≡◌, ◌<◌, length};
ghost use Rattle.limit.specs.Numbers.{Number};
ghost use Rattle.sweep.specs.Outcomes.{Going};
ghost use Rattle.job.specs.Steps.{follows, stepped, fallen};
ghost use Rattle.job.specs.Whole.{whole, sheets_of, setting};

use super::job::Job;
use super::limits::Limits;
use super::pouring::pour;
use grade::{Cell, Class, Speed};
use limit::Limit;
use runs::{Make, Stage};
use sweep::{FRESH, Outcome, sweep_step};

// That a sheet is as long as there are samples is required by `follow`, `step` and `work`, and is no struct's: it would hold
// the job and both sheets by `&mut`, and each clause would read through one reference more.
impl Job {
    // What follows from the outcome of an evaluation at a sample, whose value has fallen already: a match on where the job
    // stands and what came, in place of closures, since the definition in the contract has the same cases.
    fn follow(
        &mut self,
        at: usize,
        outcome: Outcome,
        classes: &[Cell<Class>],
        speeds: &mut [Cell<Speed>],
    )
        requires classes { length classes.now ≡ self.old.samples.count }
        requires speeds { length speeds.old ≡ self.old.samples.count }
        requires going { Going self.old.samples.count outcome }
        ensures samples { self.new.samples ≡ self.old.samples }
        ensures follows { (a b : Number) → whole self.new classes.now speeds.new ≡ follows (setting self.old.samples.count a b) at outcome self.old.stage self.old.sweep (sheets_of classes.now speeds.old) }
    {
        match (self.stage, outcome) {
            (Stage::Working(_), Outcome::Stuck) => self.stage = Stage::Impossible(at),
            // Field by field: a whole struct is moved with what lies between its fields, and would be waited for.
            (Stage::Working(_), Outcome::Onward(sweep)) => {
                self.sweep.direction = sweep.direction;
                self.sweep.visited = sweep.visited;
                self.sweep.marked = sweep.marked;
            }
            (Stage::Working(Make::Classes), Outcome::Ended) => {
                self.stage = pour(classes, speeds);
                self.sweep = FRESH;
            }
            (Stage::Working(Make::Speeds), Outcome::Ended) => {
                self.stage = Stage::Settled;
                self.sweep = FRESH;
            }
            (Stage::Settled | Stage::Impossible(_), _) => {}
        }
    }

    // One evaluation and what follows from it, if the job is at work, and how many values it lowered.
    pub(crate) fn step<C: Limit<Class>, S: Limit<Speed>>(
        &mut self,
        classes: &mut [Cell<Class>],
        speeds: &mut [Cell<Speed>],
        limits: &Limits<'_, C, S>,
    ) -> u64
        requires { (length classes.old ≡ self.old.samples.count) × (length speeds.old ≡ self.old.samples.count) }
        ensures samples { self.new.samples ≡ self.old.samples }
        ensures stepped { whole self.new classes.new speeds.new ≡ stepped (setting self.old.samples.count (C.Limit.number limits.now.classes.now) (S.Limit.number limits.now.speeds.now)) self.old.stage self.old.sweep (sheets_of classes.old speeds.old) }
        ensures fallen { result ≡ fallen (setting self.old.samples.count (C.Limit.number limits.now.classes.now) (S.Limit.number limits.now.speeds.now)) self.old.stage self.old.sweep (sheets_of classes.old speeds.old) }
    {
        // Each make has an arm of its own, since its cells and its limit are of another type.
        match self.stage {
            Stage::Working(Make::Classes) => {
                let step = sweep_step(classes, limits.classes, self.sweep);
                self.follow(step.at, step.outcome, classes, speeds);
                step.lowerings()
            }
            Stage::Working(Make::Speeds) => {
                let step = sweep_step(speeds, limits.speeds, self.sweep);
                self.follow(step.at, step.outcome, classes, speeds);
                step.lowerings()
            }
            Stage::Settled | Stage::Impossible(_) => 0,
        }
    }
}

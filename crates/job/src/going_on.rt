// Evaluations at samples between two others, as long as each finds room: they end no sweep and leave nothing to decide.
ghost use Rattle.std.specs.Prelude.{◌≡◌, ℕ, ◌+◌, ◌-◌, ◌<◌, ◌≤◌, length};
ghost use Rattle.runs.specs.Calls.{advanced};
ghost use Rattle.sweep.specs.Passes.{further};
ghost use Rattle.job.specs.Whole.{whole, setting};

use super::job::Job;
use super::limits::Limits;
use grade::{Cell, Class, Speed};
use limit::Limit;
use runs::{Make, Stage};
use sweep::sweep_on;

// How many evaluations were made, and how many of them lowered a value.
#[derive(Clone, Copy, Debug, PartialEq, Eq)]
pub(crate) struct Made {
    pub(crate) evaluations: u64,
    pub(crate) lowerings: u64,
}

impl Job {
    // At most so many, if the job is at work.
    pub(crate) fn go_on<C: Limit<Class>, S: Limit<Speed>>(
        &mut self,
        classes: &mut [Cell<Class>],
        speeds: &mut [Cell<Speed>],
        limits: &Limits<'_, C, S>,
        most: u64,
    ) -> Made
        requires { (length classes.old ≡ self.old.samples.count) × (length speeds.old ≡ self.old.samples.count) }
        ensures samples { self.new.samples ≡ self.old.samples }
        ensures stage { self.new.stage ≡ self.old.stage }
        ensures most { result.evaluations ≤ most }
        ensures fewer { result.lowerings ≤ result.evaluations }
        ensures went { (k : ℕ) → let σ = setting self.old.samples.count (C.Limit.number limits.now.classes.now) (S.Limit.number limits.now.speeds.now) in advanced σ (result.evaluations + k) (whole self.old classes.old speeds.old) ≡ further result.evaluations result.lowerings (advanced σ k (whole self.new classes.new speeds.new)) }
    {
        let visited = self.sweep.visited;
        let lowerings = match self.stage {
            Stage::Working(Make::Classes) => {
                sweep_on(classes, limits.classes, &mut self.sweep, most as usize)
            }
            Stage::Working(Make::Speeds) => {
                sweep_on(speeds, limits.speeds, &mut self.sweep, most as usize)
            }
            Stage::Settled | Stage::Impossible(_) => 0,
        };
        Made {
            evaluations: (self.sweep.visited - visited) as u64,
            lowerings,
        }
    }
}

// Advancing: steps within an allowance.
ghost use Rattle.std.specs.Prelude.{◌≡◌, [], ◌∷◌, length};
ghost use Rattle.runs.specs.declared.call.Call.TheVariants.{Advance};
ghost use Rattle.runs.specs.Calls.{advanced, progress};
ghost use Rattle.job.specs.Calling.{Does, Lawful, told};
ghost use Rattle.job.specs.Holding.{held};
ghost use Rattle.job.specs.Steps.{at_work_of};
ghost use Rattle.job.specs.Whole.{whole, setting};

use super::job::Job;
use super::limits::Limits;
use grade::{Cell, Class, Speed};
use limit::{Limit, lawful};
use runs::{Call, Fault, Progress, Stage};

impl Job {
    fn at_work(&self) -> bool
        ensures { result ≡ at_work_of self.now.stage }
    {
        matches!(self.stage, Stage::Working(_))
    }

    // Evaluations until the allowance is used or the work ends: those that leave nothing to decide in a loop of their own, each
    // other one as a step.
    fn work<C: Limit<Class>, S: Limit<Speed>>(
        &mut self,
        classes: &mut [Cell<Class>],
        speeds: &mut [Cell<Speed>],
        limits: &Limits<'_, C, S>,
        allowance: u64,
    ) -> Progress
        requires { (length classes.old ≡ self.old.samples.count) × (length speeds.old ≡ self.old.samples.count) }
        ensures samples { self.new.samples ≡ self.old.samples }
        ensures came { let came = advanced (setting self.old.samples.count (C.Limit.number limits.now.classes.now) (S.Limit.number limits.now.speeds.now)) allowance (whole self.old classes.old speeds.old) in (whole self.new classes.new speeds.new ≡ came.job) × (result ≡ progress came) }
    {
        let mut evaluations = 0;
        let mut lowerings = 0;
        while evaluations < allowance && self.at_work() {
            // One less than is left: a step follows.
            let inner = self.go_on(classes, speeds, limits, allowance - evaluations - 1);
            lowerings += inner.lowerings + self.step(classes, speeds, limits);
            evaluations += inner.evaluations + 1;
        }
        Progress {
            stage: self.stage,
            evaluations,
            lowerings,
        }
    }

    // Evaluates until the allowance is used or the job is settled or impossible.
    pub fn advance<C: Limit<Class>, S: Limit<Speed>>(
        &mut self,
        classes: &mut [Cell<Class>],
        speeds: &mut [Cell<Speed>],
        limits: &Limits<'_, C, S>,
        allowance: u64,
    ) -> Result<Progress, Fault>
        ensures does { Does (C.Limit.number limits.now.classes.now) (S.Limit.number limits.now.speeds.now) (Advance allowance) (held self.old classes.old speeds.old) (held self.new classes.new speeds.new) (told result) }
        ensures law { Lawful (C.Limit.number limits.now.classes.now) (S.Limit.number limits.now.speeds.now) (Advance allowance ∷ []) (held self.old classes.old speeds.old) (held self.new classes.new speeds.new) }
    {
        lawful(limits.classes);
        lawful(limits.speeds);
        self.ask(classes.len(), speeds.len(), Call::Advance(allowance))?;
        let n = self.samples.count;
        Ok(self.work(&mut classes[..n], &mut speeds[..n], limits, allowance))
    }
}

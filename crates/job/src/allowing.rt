// The allowance that suffices to end the work.
ghost use Rattle.job.specs.Holding.{held};
ghost use Rattle.job.specs.Allowing.{Allowed};

use super::job::Job;
use grade::{Cell, Class, Speed};
use runs::Fault;
use sweep::total;

// The sweeps over and above one for each rank that a value can fall.
const SPARE_SWEEPS: u64 = 3;

impl Job {
    // As many evaluations as the job can need from here, whatever its limits.
    pub fn sufficient_allowance(
        &self,
        classes: &[Cell<Class>],
        speeds: &[Cell<Speed>],
    ) -> Result<u64, Fault>
        ensures { Allowed (held self.now classes.now speeds.now) result }
    {
        self.ask_room(classes.len(), speeds.len())?;
        let n = self.samples.count;
        let class_sum = total(&classes[..n]);
        let speed_sum = total(&speeds[..n]);
        Ok(n as u64 * (class_sum + speed_sum + SPARE_SWEEPS))
    }
}

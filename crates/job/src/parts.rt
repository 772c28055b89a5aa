// A job as plain words, for a caller who keeps it as such, and the job that such words are.
ghost use Rattle.std.specs.Prelude.{◌≡◌, false, MatchOption, Some};
ghost use Rattle.job.specs.declared.job.Job.{Job};
ghost use Rattle.job.specs.Parts.{parts_of, are_parts};

use super::job::Job;
use runs::{Samples, Stage, Sweep};

#[derive(Clone, Copy, Debug, PartialEq, Eq)]
pub struct Parts {
    // How many samples.
    pub samples: u64,
    pub stage: Stage,
    pub sweep: Sweep,
}

impl Job {
    pub fn parts(&self) -> Parts
        ensures { result ≡ parts_of self.now }
    {
        Parts {
            samples: self.samples.count as u64,
            stage: self.stage,
            sweep: self.sweep,
        }
    }

    // The job that has these parts, or nothing where none has them: fewer than 2 or more than 4096 samples, or a sweep with no
    // sample to visit. Unsafe, though it harms no memory: with it a job could be called that was released, and one released that
    // never settled. Who calls it vouches that the parts are those of a job that is kept as such and nowhere else.
    pub unsafe fn from_parts(parts: Parts) -> Option<Job>
        ensures has { MatchOption result (are_parts parts ≡ false) (λ j. parts_of j ≡ parts) }
        ensures again { (j : Job) → parts_of j ≡ parts → result ≡ Some j }
    {
        let samples = Samples::new(parts.samples).ok()?;
        if parts.sweep.visited >= samples.count {
            return None;
        }
        Some(Job {
            samples,
            stage: parts.stage,
            sweep: parts.sweep,
        })
    }
}

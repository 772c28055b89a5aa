// A job: where its work stands. Its two sheets are handed to each call beside it.
ghost use Rattle.std.specs.Prelude.{◌<◌};

use runs::{Samples, Stage, Sweep};

#[derive(Debug, Drop, PartialEq, Eq)]
pub struct Job {
    pub(crate) samples: Samples,
    pub(crate) stage: Stage,
    pub(crate) sweep: Sweep,
    // The sweep has a sample to visit.
    ghost going: { sweep.visited < samples.count },
}

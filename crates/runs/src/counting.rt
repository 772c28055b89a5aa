// Making a count of samples.
ghost use Rattle.std.specs.Prelude.{◌≡◌};
ghost use Rattle.runs.specs.Counts.{counted, sampled};

use super::call::Fault;
use super::samples::Samples;

const FEWEST: u64 = 2;

const MOST: u64 = 4096;

impl Samples {
    pub fn new(count: u64) -> Result<Samples, Fault>
        ensures { counted result ≡ sampled count }
    {
        if !(FEWEST..=MOST).contains(&count) {
            return Err(Fault::BadCount);
        }
        Ok(Samples {
            count: count as usize,
        })
    }
}

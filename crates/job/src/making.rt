// Making a job from the caps and floors in its memory.
ghost use Rattle.std.specs.Prelude.{◌≡◌, map};
ghost use Rattle.job.specs.Making.{opened, Makes};
ghost use Rattle.sweep.specs.Beginnings.{at_cap};

use super::asking::ask_memory;
use super::job::Job;
use grade::{Cell, Class, Speed};
use runs::{Fault, Make, Samples, Stage};
use sweep::{FRESH, begin, check};

// The stage of a job over sheets that begin.
fn begin_both(classes: &mut [Cell<Class>], speeds: &mut [Cell<Speed>]) -> Stage
    ensures classes { classes.new ≡ map at_cap classes.old }
    ensures speeds { speeds.new ≡ map at_cap speeds.old }
    ensures stage { result ≡ opened classes.new speeds.new }
{
    begin(classes);
    begin(speeds);
    check(classes, check(speeds, Stage::Working(Make::Classes)))
}

impl Job {
    // A job over as many cells of each sheet as there are samples: their caps and floors count, their values begin anew.
    pub fn make(
        classes: &mut [Cell<Class>],
        speeds: &mut [Cell<Speed>],
        samples: Samples,
    ) -> Result<Job, Fault>
        ensures { Makes samples classes.old classes.new speeds.old speeds.new result }
    {
        ask_memory(samples, classes.len(), speeds.len())?;
        let n = samples.count;
        let stage = begin_both(&mut classes[..n], &mut speeds[..n]);
        Ok(Job {
            samples,
            stage,
            sweep: FRESH,
        })
    }
}

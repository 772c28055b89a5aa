// Release: asked first, and after the yes a settled job is spent for what its setpoints are written from.
ghost use Rattle.std.specs.Prelude.{◌≡◌, ◌≤◌, length, take, OnOk};
ghost use Rattle.job.specs.Holding.{held};
ghost use Rattle.setpoint.specs.Release.{release_asked, Ready, Releases};

use super::fault::SetpointFault;
use super::released::Released;
use grade::{Cell, Class, Speed};
use job::Job;
use runs::Stage;

// Do memories of so many cells hold the job's samples, and is the job settled?
pub fn ask_release(job: &Job, classes: usize, speeds: usize) -> Result<(), SetpointFault>
    ensures is { result ≡ release_asked job.now classes speeds }
    ensures ready { OnOk result (Ready job.now classes speeds) }
{
    job.ask_room(classes, speeds)?;
    match job.stage() {
        Stage::Settled => Ok(()),
        Stage::Working(_) | Stage::Impossible(_) => Err(SetpointFault::NotSettled),
    }
}

// The cells of the job's samples.
fn lend<'a>(job: &Job, classes: &'a [Cell<Class>], speeds: &'a [Cell<Speed>]) -> Released<'a>
    requires { (job.now.samples.count ≤ length classes.now) × (job.now.samples.count ≤ length speeds.now) }
    ensures classes { result.classes.now ≡ take job.now.samples.count classes.now }
    ensures speeds { result.speeds.now ≡ take job.now.samples.count speeds.now }
{
    let samples = job.samples();
    let n = samples.count;
    Released {
        samples,
        classes: &classes[..n],
        speeds: &speeds[..n],
    }
}

// Spends a job that was asked and said yes. Its cells stay lent, so that nothing changes them before they are written.
pub fn release<'a>(job: Job, classes: &'a [Cell<Class>], speeds: &'a [Cell<Speed>]) -> Released<'a>
    requires { Ready job (length classes.now) (length speeds.now) }
    ensures { Releases (held job classes.now speeds.now) result }
{
    lend(&job, classes, speeds)
}

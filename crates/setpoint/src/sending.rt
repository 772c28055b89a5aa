// Release and the writing of setpoints in one call, with nothing required.
ghost use Rattle.std.specs.Prelude.{◌≡◌, length, OnOk};
ghost use Rattle.job.specs.Holding.{held};
ghost use Rattle.setpoint.specs.Sending.{frame_asked, Prepared, Spends, Sends};

use super::fault::SetpointFault;
use super::releasing::{ask_release, release};
use super::unreleased::Unreleased;
use super::writing::ask_memory;
use grade::{Cell, Class, Speed};
use job::Job;

// The questions of release, and then whether a memory of so many bytes holds the frame.
fn ask_frame(job: &Job, classes: usize, speeds: usize, room: usize) -> Result<(), SetpointFault>
    ensures is { result ≡ frame_asked job.now classes speeds room }
    ensures prepared { OnOk result (Prepared job.now classes speeds room) }
{
    ask_release(job, classes, speeds)?;
    ask_memory(job.samples(), room)
}

// Spends a job that said yes to every question.
fn spend<'a>(
    job: Job,
    classes: &'a [Cell<Class>],
    speeds: &'a [Cell<Speed>],
    out: &mut [u8],
) -> usize
    requires { Prepared job (length classes.now) (length speeds.now) (length out.old) }
    ensures { Spends (held job classes.now speeds.now) out.old out.new result }
{
    release(job, classes, speeds).put_frame(out)
}

// Spends a settled job for its setpoint frame and says how many bytes that has, the bytes past it untouched; a job that
// is not released comes back as it was, and nothing changes.
pub fn release_setpoints<'a>(
    job: Job,
    classes: &'a [Cell<Class>],
    speeds: &'a [Cell<Speed>],
    out: &mut [u8],
) -> Result<usize, Unreleased>
    ensures { Sends (held job classes.now speeds.now) out.old out.new result }
{
    // A `match` and no `map_err`: the job goes into the frame or back to its caller.
    match ask_frame(&job, classes.len(), speeds.len(), out.len()) {
        Ok(()) => Ok(spend(job, classes, speeds, out)),
        Err(fault) => Err(Unreleased { job, fault }),
    }
}

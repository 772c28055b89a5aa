// The questions before a making: the reader's, then those of memory.
ghost use Rattle.std.specs.Prelude.{◌≡◌, length, OnOk};
ghost use Rattle.planner.specs.Asking.{asked};
ghost use Rattle.planner.specs.Making.{Granted};

use super::fault::MakeFault;
use frame::{Header, read};
use grade::{Cell, Class, Speed};

/// Asks whether a job can be made of a frame in these memories: the frame's header, or the first question that says no.
pub fn ask(
    bytes: &[u8],
    classes: &[Cell<Class>],
    speeds: &[Cell<Speed>],
) -> Result<Header, MakeFault>
    ensures is { result ≡ asked bytes.now (length classes.now) (length speeds.now) }
    ensures yes { OnOk result (Granted bytes.now (length classes.now) (length speeds.now)) }
{
    ask_sizes(bytes, classes.len(), speeds.len())
}

// The same of memories of so many cells. Asked here of the frame's own count, since there is no job yet whose questions say it.
pub(crate) fn ask_sizes(bytes: &[u8], classes: usize, speeds: usize) -> Result<Header, MakeFault>
    ensures is { result ≡ asked bytes.now classes speeds }
    ensures yes { OnOk result (Granted bytes.now classes speeds) }
{
    let header = read(bytes)?;
    let samples = header.samples as usize;
    if classes < samples {
        return Err(MakeFault::NoClassMemory);
    }
    if speeds < samples {
        return Err(MakeFault::NoSpeedMemory);
    }
    Ok(header)
}

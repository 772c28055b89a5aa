// A frame's bytes read and its records written again, in one call.
ghost use Rattle.std.specs.Prelude.{◌≡◌};
ghost use Rattle.frame.specs.declared.rewriting.RewriteFault.TheVariants.{Frame, Memory};
ghost use Rattle.frame.specs.Rewrites.{Rewrites, rewrite_question};

use super::fault::FrameFault;
use super::reading::read;
use super::view::PathFrame;
use super::writing::WriteFault;
use thiserror::Error;

/// Why a frame was not written again.
#[derive(Clone, Copy, Debug, PartialEq, Eq, Error)]
pub enum RewriteFault {
    // The reader refuses the bytes.
    #[error(transparent)]
    Frame(FrameFault),
    #[error("the memory is shorter than the frame")]
    Memory,
}

// By hand, as in every crate here: contracts name the variant that each conversion gives, which a derived one does not say.

impl From<FrameFault> for RewriteFault {
    ghost from_gives = { λ e r. r ≡ Frame e };

    fn from(fault: FrameFault) -> RewriteFault {
        RewriteFault::Frame(fault)
    }
}

impl From<WriteFault> for RewriteFault {
    ghost from_gives = { λ _ r. r ≡ Memory };

    fn from(fault: WriteFault) -> RewriteFault {
        match fault {
            WriteFault::Memory => RewriteFault::Memory,
        }
    }
}

impl RewriteFault {
    /// The number of the question that said no: of a refused frame the reader's.
    pub fn number(self) -> u8
        ensures { result ≡ rewrite_question self }
    {
        match self {
            RewriteFault::Frame(refused) => refused.refusal().number,
            RewriteFault::Memory => WriteFault::Memory.number(),
        }
    }
}

/// Reads a path frame and writes its records into memory; a refusal, of the frame or for want of memory, changes nothing.
pub fn rewrite(bytes: &[u8], out: &mut [u8]) -> Result<usize, RewriteFault>
    ensures { Rewrites bytes.now out.old out.new result }
{
    read(bytes)?;
    Ok(PathFrame::over(bytes).write(out)?)
}

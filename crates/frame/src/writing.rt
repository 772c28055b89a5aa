// Writing an accepted frame's records into lent memory.
ghost use Rattle.std.specs.Prelude.{◌≡◌, ◌≤◌, ◌++◌, length, drop};
ghost use Rattle.frame.specs.Writes.{Rewritable, Writes, write_question};

use super::body::Body;
use super::layout;
use super::records::put_records;
use super::view::PathFrame;
use record::{Gap, Sample, TorqueRow};
use thiserror::Error;
use words::{put, see_bytes};

/// Why a frame was not written.
#[derive(Clone, Copy, Debug, PartialEq, Eq, Error)]
pub enum WriteFault {
    #[error("the memory is shorter than the frame")]
    Memory,
}

// The number of the question about memory, as the format counts questions.
const PATH_MEMORY: u8 = 72;

impl WriteFault {
    /// The number of the question that said no; it has no place in the frame.
    pub fn number(self) -> u8
        ensures { result ≡ write_question self }
    {
        match self {
            WriteFault::Memory => PATH_MEMORY,
        }
    }
}

impl PathFrame<'_> {
    /// Writes the records into memory: the frame's bytes in front, the rest untouched; or too little memory, and nothing changes.
    #[tactic(auto, using(crate::proofs::Accepted::path_sized, crate::proofs::Again::rewritable))]
    pub fn write(&self, out: &mut [u8]) -> Result<usize, WriteFault>
        ensures { Writes self.now.bytes.now out.old out.new result }
    {
        see_bytes(self.bytes);
        let size = self.header().frame_size();
        if out.len() < size {
            return Err(WriteFault::Memory);
        }
        put_body(self.body(), out);
        Ok(size)
    }
}

// Writes the header and every record where they lie.
fn put_body(body: Body<'_>, out: &mut [u8])
    requires sound { Rewritable body.bytes.now body.header }
    requires room { length body.bytes.now ≤ length out.old }
    ensures { out.new ≡ body.entry.bytes.now ++ drop (length body.entry.bytes.now) out.old }
{
    put(out, layout::VERSION_AT, &body.header.bytes());
    put_records::<Sample, _, _>(&body, out);
    put_records::<Gap, _, _>(&body, out);
    put_records::<TorqueRow, _, _>(&body, out);
}

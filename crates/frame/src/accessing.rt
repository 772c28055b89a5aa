// The records of an accepted frame, by their numbers.
ghost use Rattle.std.specs.Prelude.{◌≡◌, ◌↔◌, true, length, Err, IsOk, IfOk, IfErr};
ghost use Rattle.frame.specs.Paths.{accepted, header_at, path_read};
ghost use Rattle.frame.specs.Views.{path_of, nth, CapShown};

use super::body::Body;
use super::fault::FrameFault;
use super::header::Header;
use super::reading::{header_at, read};
use super::records::record_at;
use super::view::PathFrame;
use record::Sample;
use words::see_bytes;

impl<'a> PathFrame<'a> {
    /// Reads a path frame: its view, or the one refusal.
    #[tactic(auto, using(crate::proofs::Accepted::header_is))]
    pub fn read(bytes: &'a [u8]) -> Result<PathFrame<'a>, FrameFault>
        ensures accepts { IsOk result ↔ (accepted bytes.now ≡ true) }
        ensures view { IfOk result (λ frame. frame.bytes.now ≡ bytes.now) }
        ensures refuses { IfErr result (λ fault. path_read bytes.now ≡ Err fault) }
    {
        let header = read(bytes)?;
        Ok(PathFrame { bytes, header })
    }

    /// The view of bytes that the function `read` accepted.
    #[tactic(auto, using(crate::proofs::Accepted::header_long))]
    pub fn over(bytes: &'a [u8]) -> PathFrame<'a>
        requires { accepted bytes.now ≡ true }
        ensures { result.bytes.now ≡ bytes.now }
    {
        PathFrame {
            bytes,
            header: header_at(bytes),
        }
    }

    /// How many samples and rows there are, the spacing and the lateral number.
    #[tactic(auto, using(crate::proofs::Accepted::header_long, crate::proofs::Accepted::header_is))]
    pub fn header(&self) -> Header
        ensures { result ≡ (path_of self.now.bytes.now).header }
    {
        self.header
    }

    #[tactic(auto, using(crate::proofs::Accepted::header_long, crate::proofs::Accepted::header_many, crate::proofs::Accepted::header_rowed, crate::proofs::Accepted::header_sized))]
    pub(crate) fn body(&self) -> Body<'a>
        ensures bytes { result.bytes.now ≡ self.now.bytes.now }
        ensures header { result.header ≡ header_at self.now.bytes.now }
    {
        Body {
            bytes: self.bytes,
            header: self.header,
        }
    }

    /// A sample by its number, or nothing past the last.
    #[tactic(auto, using(crate::proofs::Accepted::sample_is))]
    pub fn sample(&self, index: usize) -> Option<Sample>
        ensures { result ≡ nth (path_of self.now.bytes.now).samples index }
    {
        record_at(&self.body(), index)
    }

    /// The cap on a sample's squared speed that its clause gives, or nothing past the last sample.
    #[tactic(auto, using(crate::proofs::Shown::sample_legal))]
    pub fn speed_cap(&self, index: usize) -> Option<u32>
        ensures { CapShown (path_of self.now.bytes.now) index result }
    {
        see_bytes(self.bytes);
        let sample = self.sample(index)?;
        Some(sample.clause.speed_cap(self.header().lateral))
    }
}

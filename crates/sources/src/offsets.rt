// The offsets of a frame's samples.
ghost use Rattle.frame.specs.Views.{path_of};
ghost use Rattle.sources.specs.Sources.{offsets_of};

use frame::PathFrame;
use motion::Offsets;

/// The offset q of each sample of a frame.
#[derive(Clone, Copy, Debug, PartialEq, Eq)]
pub struct FrameOffsets<'a> {
    pub frame: PathFrame<'a>,
}

impl<'a> Offsets for FrameOffsets<'a> {
    ghost offsets = { λ s. offsets_of (path_of s.frame.bytes.now) };

    fn len(&self) -> usize {
        self.frame.header().samples as usize
    }

    #[tactic(auto, using(crate::proofs::Known::offset_at))]
    fn offset(&self, at: usize) -> i32 {
        self.frame.known_offset(at)
    }
}

// The offsets of a prepared frame's samples.
ghost use Rattle.frame.specs.Views.{path_of};
ghost use Rattle.sources.specs.Sources.{offsets_of};

use super::view::Prepared;
use motion::Offsets;

impl<'a> Offsets for Prepared<'a> {
    ghost offsets = { λ s. offsets_of (path_of s.frame.bytes.now) };

    fn len(&self) -> usize {
        self.samples.len()
    }

    #[inline(always)]
    fn offset(&self, at: usize) -> i32 {
        let bounds = self.samples[at];
        bounds.offset
    }
}

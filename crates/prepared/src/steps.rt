// The steps of a prepared frame's gaps.
ghost use Rattle.frame.specs.Views.{path_of};
ghost use Rattle.sources.specs.Sources.{speed_steps};

use super::view::Prepared;
use motion::{Step, Steps};

impl<'a> Steps for Prepared<'a> {
    ghost steps = { λ s. speed_steps (path_of s.frame.bytes.now) };

    fn len(&self) -> usize {
        self.samples.len().saturating_sub(1)
    }

    #[inline(always)]
    fn step(&self, gap: usize) -> Step {
        Step {
            up: self.samples[gap + 1].up,
            down: self.samples[gap].down,
        }
    }
}

// The steps of a frame's gaps: rise and fall of classes, up and down of squared speeds.
ghost use Rattle.std.specs.Prelude.{◌≡◌, map};
ghost use Rattle.record.specs.declared.gap.Gap.{Gap};
ghost use Rattle.motion.specs.declared.steps.Step.{Step};
ghost use Rattle.frame.specs.Views.{path_of};
ghost use Rattle.sources.specs.Sources.{class_step_of, speed_step_of};

use frame::PathFrame;
use grade::{Class, Speed};
use motion::{Step, Steps};
use record::Gap;
use std::marker::PhantomData;

/// Which numbers of a gap are the step for a make of grade.
pub trait GapStep: Copy {
    ghost step_of: { Gap → Step };

    fn step(gap: Gap) -> Step
        ensures { result ≡ step_of gap };
}

impl GapStep for Class {
    ghost step_of = { class_step_of };

    fn step(gap: Gap) -> Step {
        Step {
            up: gap.rise as u32,
            down: gap.fall as u32,
        }
    }
}

impl GapStep for Speed {
    ghost step_of = { speed_step_of };

    fn step(gap: Gap) -> Step {
        Step {
            up: gap.up,
            down: gap.down,
        }
    }
}

/// How much a make of grade may rise and fall over each gap of a frame.
#[derive(Clone, Copy, Debug, PartialEq, Eq)]
pub struct FrameSteps<'a, G> {
    pub frame: PathFrame<'a>,
    pub make: PhantomData<G>,
}

impl<'a, G: GapStep> Steps for FrameSteps<'a, G> {
    ghost steps = { λ s. map G.step_of (path_of s.frame.bytes.now).gaps };

    fn len(&self) -> usize {
        (self.frame.header().samples as usize).saturating_sub(1)
    }

    fn step(&self, gap: usize) -> Step {
        G::step(self.frame.known_gap(gap))
    }
}

// Where the steps of a ramp lie: for each gap, how much a profile may rise and fall over it.
ghost use Rattle.std.specs.Prelude.{◌≡◌, ◌<◌, List, length, slice_index_or};
ghost use Rattle.motion.specs.declared.steps.Step.{Step};
ghost use Rattle.motion.specs.Ramps.{no_step};

#[derive(Clone, Copy, Debug, PartialEq, Eq)]
pub struct Step {
    pub up: u32,
    pub down: u32,
}

pub trait Steps: Copy {
    ghost steps: { Self → List Step };

    fn len(&self) -> usize
        ensures { result ≡ length (steps self.now) };

    fn step(&self, gap: usize) -> Step
        requires { gap < length (steps self.now) }
        ensures { result ≡ slice_index_or (steps self.now) gap no_step };
}

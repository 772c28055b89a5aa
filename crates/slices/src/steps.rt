// Steps in a slice.
use motion::{Step, Steps};

#[derive(Clone, Copy, Debug, PartialEq, Eq)]
pub struct StepSlice<'a> {
    pub steps: &'a [Step],
}

impl<'a> Steps for StepSlice<'a> {
    ghost steps = { λ s. s.steps.now };

    fn len(&self) -> usize {
        self.steps.len()
    }

    fn step(&self, gap: usize) -> Step {
        self.steps[gap]
    }
}

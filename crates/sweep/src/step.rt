// What a step of a sweep found.
ghost use Rattle.std.specs.Prelude.{◌≡◌};
ghost use Rattle.runs.specs.Evaluations.{lowering};

use super::sweeping::Outcome;
use runs::Finding;

#[derive(Clone, Copy, Debug, PartialEq, Eq)]
pub struct Step {
    // The sample that it visited.
    pub at: usize,
    pub finding: Finding,
    pub outcome: Outcome,
}

impl Step {
    // How many values it lowered, one or none.
    pub fn lowerings(&self) -> u64
        ensures { result ≡ lowering self.now.finding }
    {
        lowering_of(self.finding)
    }
}

// How many values a finding lowers, one or none.
pub(crate) fn lowering_of(finding: Finding) -> u64
    ensures { result ≡ lowering finding }
{
    match finding {
        Finding::Lowers(_) => 1,
        Finding::Keeps | Finding::Clashes => 0,
    }
}

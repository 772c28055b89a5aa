// A job that was not released, as it was, and why.
use super::fault::SetpointFault;
use job::Job;

// It gives a job back, and is never compared.
#[derive(Debug, Drop)]
pub struct Unreleased {
    pub job: Job,
    pub fault: SetpointFault,
}

// What a call answers.
use super::call::Fault;
use super::stage::Stage;

// How far an advance came.
#[derive(Clone, Copy, Debug, PartialEq, Eq)]
pub struct Progress {
    pub stage: Stage,
    // The evaluations of this advance.
    pub evaluations: u64,
    // How many of them lowered a value.
    pub lowerings: u64,
}

// What a look gives: where the job stands, with the sample of the fault in an impossible one, and a sample's values.
#[derive(Clone, Copy, Debug, PartialEq, Eq)]
pub struct Sight {
    pub stage: Stage,
    pub class: u32,
    pub speed: u32,
}

// What a call that is done answers.
#[derive(Clone, Copy, Debug, PartialEq, Eq)]
pub enum Reply {
    Advanced(Progress),
    // A cut or a lift was done.
    Done,
    Seen(Sight),
}

// What a call answers: what it came to, or why it is refused.
pub type Answer = Result<Reply, Fault>;

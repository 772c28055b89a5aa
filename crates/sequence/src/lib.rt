// Sequences of calls on a job, and whole plans: a job made of its memory and a sequence of calls on it.
#![tactic(auto)]

mod calling;
mod performing;
mod planning;
mod running;

pub use calling::make_call;
pub use planning::plan;
pub use running::run;

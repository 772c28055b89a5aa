// The planner's job as definitions over ranks, with the plain types that its calls use.
#![tactic(auto)]

mod call;
mod counting;
mod finding;
mod lawful;
mod reply;
mod samples;
mod stage;

pub use call::{Call, Fault};
pub use finding::Finding;
pub use lawful::runs_are_lawful;
pub use reply::{Answer, Progress, Reply, Sight};
pub use samples::Samples;
pub use stage::{Direction, Make, Stage, Sweep};

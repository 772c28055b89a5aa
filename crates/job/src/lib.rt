// The job: sweeps over two sheets under two limits, and the calls that steer it.
#![tactic(auto)]

mod advancing;
mod allowing;
mod asking;
mod calling;
mod changing;
mod going_on;
mod job;
mod limits;
mod looking;
mod making;
mod parts;
mod pouring;
mod stepping;
mod table;

pub use job::Job;
pub use limits::Limits;
pub use parts::Parts;
pub use runs::{Progress, Sight};
pub use table::top_speed;

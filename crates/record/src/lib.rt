// The records of a path frame: each as it lies in the bytes, the questions asked of it, and the typed value that it stands for.
#![tactic(auto)]

mod asked;
mod asking;
mod explaining;
mod fault;
mod gap;
pub mod layout;
mod row;
mod sample;

pub use asked::Asked;
pub use asking::Fault;
pub use fault::RecordFault;
pub use gap::{Gap, GapFault, GapWords};
pub use row::{RowFault, RowPlace, RowWords};
pub use sample::{Sample, SampleFault, SampleWords};
pub use torque::Row as TorqueRow;

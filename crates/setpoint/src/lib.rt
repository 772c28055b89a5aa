// From a settled job to the bytes that a drive is sent: release, which spends the job, and the setpoint frame.
#![tactic(auto)]

mod fault;
mod layout;
mod released;
mod releasing;
mod sending;
mod speeds;
mod unreleased;
mod writing;

pub use fault::SetpointFault;
pub use released::Released;
pub use releasing::{ask_release, release};
pub use sending::release_setpoints;
pub use speeds::sent_speed;
pub use unreleased::Unreleased;

// The limits of motion: ramp for every raisable grade, average and torque for squared speeds, and where their data lie.
#![tactic(auto)]

mod average;
mod floor;
mod offsets;
mod ramp;
mod rate;
mod reading;
mod rows;
mod searching;
mod sides;
mod spaced_row;
mod speed_limit;
mod steps;
mod torque_limit;
mod triple;

pub use average::{Average, average_greatest, average_kept_exactly};
pub use offsets::Offsets;
pub use ramp::{Ramp, ramp_after, ramp_before, ramp_greatest, ramp_kept_exactly};
pub use rate::rate_is_no_limit;
pub use rows::Rows;
pub use sides::Sides;
pub use speed_limit::{SpeedLimit, make_speed_limit};
pub use steps::{Step, Steps};
pub use torque::Row;
pub use torque_limit::{Torque, row_bound, torque_greatest, torque_kept_exactly};
pub use triple::Triple;

// A frame's speed limit worked out once, in memory that the caller lends: what bounds each sample and each torque row as two
// inequalities, in the byte order of the machine. A limit over it gives the numbers that the frame's own limit gives.
#![tactic(auto)]

mod bounds;
mod filling;
mod limits;
mod offsets;
mod row_filling;
mod rows;
mod sample_filling;
mod sides;
mod steps;
mod view;

pub use bounds::{RowBounds, SampleBounds};
pub use filling::prepare;
pub use limits::{speed_limit, speed_limit_without_rows};
pub use view::Prepared;

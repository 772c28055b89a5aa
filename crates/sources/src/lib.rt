// The limits of a path frame, over data read in place from its bytes: steps, offsets and rows of an accepted frame as
// sources, the class limit and the speed limit. The three sources are alike in `len` alone: what each reads, and what its trait
// promises of that, is its own.
#![tactic(auto)]

mod limits;
mod no_rows;
mod offsets;
mod rows;
mod steps;

pub use limits::{class_limit, speed_limit, speed_limit_without_rows};
pub use no_rows::NoRows;
pub use offsets::FrameOffsets;
pub use rows::FrameRows;
pub use steps::{FrameSteps, GapStep};

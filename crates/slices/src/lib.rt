// Data of limits in slices: steps, offsets and rows as sources, a check of rows, and the speed limit over all three. The three
// sources are alike in `len` alone: what each reads, and what its trait promises of that, is its own.
#![tactic(auto)]

mod offsets;
mod rows;
mod speeds;
mod steps;

pub use offsets::OffsetSlice;
pub use rows::RowSlice;
pub use speeds::{speed_allowed, speed_kept_exactly};
pub use steps::StepSlice;
pub use torque::{are_sound, is_sound};

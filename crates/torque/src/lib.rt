// Rows of torque: the numbers of a row, and which rows are sound.
#![tactic(auto)]

mod row;
mod soundness;

pub use row::Row;
pub use soundness::{are_sound, is_small, is_sound};

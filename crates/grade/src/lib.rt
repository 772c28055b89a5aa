// Grades: the values of a sample, each with a rank from 0 to the top of its make. Cells of them.
#![tactic(auto)]

mod cell;
mod class;
mod grade;
mod making;
mod order;
mod speed;

pub use cell::Cell;
pub use class::Class;
pub use grade::{Grade, Raisable};
pub use making::from_rank;
pub use order::{higher, lower};
pub use speed::Speed;

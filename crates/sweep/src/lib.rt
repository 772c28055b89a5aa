// The work on one sheet, the same for every make of grade and every limit.
#![tactic(auto)]

mod beginning;
mod changing;
mod running;
mod step;
mod stepping;
mod sweeping;
mod totalling;
mod visiting;

pub use beginning::{begin, check};
pub use changing::{Cutting, Lifting, cut_cell, lift_cell};
pub use running::sweep_on;
pub use step::Step;
pub use stepping::sweep_step;
pub use sweeping::{FRESH, Outcome};
pub use totalling::total;

// Which constraint holds a sample's value where it is, and which one lies below a sample's floor.
#![tactic(auto)]

mod asking;
mod bound;
mod clashing;
mod classes;
mod naming;
mod place;
mod question;
mod ramps;
mod reading;
mod rows;
mod speeds;

pub use bound::{Bound, Clash};
pub use clashing::clash;
pub use naming::{class_bound, speed_bound};

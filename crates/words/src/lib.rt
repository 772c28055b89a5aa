// Big-endian numbers in byte strings: reading them in place, and writing bytes into lent memory.
#![tactic(auto)]

mod reading;
mod writing;

pub use reading::{be16, be32, see_bytes};
pub use writing::put;

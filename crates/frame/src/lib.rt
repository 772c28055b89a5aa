#![tactic(auto)]

mod accessing;
mod body;
mod each;
mod fault;
mod gaps;
mod header;
mod in_place;
pub mod layout;
mod reading;
mod records;
mod refusal;
mod rewriting;
mod rows;
mod samples;
mod size;
mod view;
mod writing;

pub use body::Body;
pub use each::{Each, PathRecord};
pub use fault::FrameFault;
pub use header::Header;
pub use reading::read;
pub use records::Records;
pub use refusal::{Layer, Refusal};
pub use rewriting::{RewriteFault, rewrite};
pub use view::PathFrame;
pub use writing::WriteFault;

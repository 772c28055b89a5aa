// Cap clauses: what bounds a sample's squared speed from above, read from a kind and two numbers, and the cap that it gives.
#![tactic(auto)]

mod bits;
mod clause;
mod explaining;
mod kind;

pub use clause::{Bend, CapClause, ClauseFault, ClauseWords};
pub use kind::{ClauseKind, UnknownKind};

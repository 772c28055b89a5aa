// From a path frame's bytes to a plan: the questions before a making, the making, and whole plans under the frame's own
// limits or any two lawful ones.
#![tactic(auto)]

mod asking;
mod calling;
mod calling_prepared;
mod cells;
mod fault;
mod filling;
mod making;
mod place;
mod planning;

pub use asking::ask;
pub use calling::call;
pub use calling_prepared::call_prepared;
pub use fault::MakeFault;
pub use making::{make, make_or_refuse};
pub use planning::{plan, plan_under};

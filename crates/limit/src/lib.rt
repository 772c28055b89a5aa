// Limits: what each sample of a profile may at most be, given the others. The trait, its laws, and two limits as one.
#![tactic(auto)]

mod allowed;
mod limit;
mod pair;

pub use allowed::{Allowed, NOTHING};
pub use limit::{Limit, lawful};
pub use pair::{Pair, pair_greatest, pair_kept_exactly};

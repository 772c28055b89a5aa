// Trials of limits: one by another maker, and every limit at the extremes of its numbers.
#![tactic(auto)]

mod extremes;
mod flat;

pub use flat::Flat;

// Tests of the frame reader and the caps on examples: every refusal at two places, clauses at their extremes, exact caps,
// the records of an accepted frame in order, and faults in words.
#![tactic(auto)]

#[cfg(test)]
mod building;
#[cfg(test)]
mod clause_caps;
#[cfg(test)]
mod refusals;
#[cfg(test)]
mod showing;

// Trials of the job: a path of three samples, by hand and call by call.
#![tactic(auto)]

#[cfg(test)]
mod calls;
#[cfg(test)]
mod path;
#[cfg(test)]
mod settling;

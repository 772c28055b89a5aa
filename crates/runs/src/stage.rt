// Where a job is in its work.

// The two makes of grade, a sheet for each.
#[derive(Clone, Copy, Debug, PartialEq, Eq)]
pub enum Make {
    Classes,
    Speeds,
}

#[derive(Clone, Copy, Debug, PartialEq, Eq)]
pub enum Stage {
    // Sweeps go over the sheet of this make.
    Working(Make),
    // Every limit is kept, by the fastest profiles that keep it.
    Settled,
    // No profiles keep what is in force; with the sample where that was found.
    Impossible(usize),
}

// Which way a sweep goes.
#[derive(Clone, Copy, Debug, PartialEq, Eq)]
pub enum Direction {
    // From the first sample to the last.
    Rising,
    // From the last to the first.
    Falling,
}

// A pass over a sheet, sample by sample, each visited once.
#[derive(Clone, Copy, Debug, PartialEq, Eq)]
pub struct Sweep {
    pub direction: Direction,
    // How many samples it has visited.
    pub visited: usize,
    // A value fell since it began, so another sweep has to follow. A plain yes or no, beside no value.
    pub marked: bool,
}

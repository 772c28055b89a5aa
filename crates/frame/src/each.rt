// The records of an accepted frame, one after another.
ghost use Rattle.std.specs.Prelude.{◌≡◌, ◌≤◌, List, length};
ghost use Rattle.std.specs.Iterator.{YieldsFirst, item_count};
ghost use Rattle.frame.specs.Paths.{Path};
ghost use Rattle.frame.specs.Views.{path_of, nth};
ghost use Rattle.frame.specs.Eaches.{left};

use super::view::PathFrame;
use record::{Gap, Sample, TorqueRow};
use std::marker::PhantomData;

/// A kind of record that a path holds.
pub trait PathRecord: Copy {
    ghost records: { Path → List Self };

    /// The record of a number, or nothing past the last.
    fn of(frame: &PathFrame<'_>, index: usize) -> Option<Self>
        ensures is { result ≡ nth (records (path_of frame.now.bytes.now)) index }
        ensures few { length (records (path_of frame.now.bytes.now)) ≤ 8192 };
}

impl PathRecord for Sample {
    ghost records = { λ p. p.samples };

    #[tactic(auto, using(crate::proofs::Counts::few_samples))]
    fn of(frame: &PathFrame<'_>, index: usize) -> Option<Sample> {
        frame.sample(index)
    }
}

impl PathRecord for Gap {
    ghost records = { λ p. p.gaps };

    #[tactic(auto, using(crate::proofs::Counts::few_gaps))]
    fn of(frame: &PathFrame<'_>, index: usize) -> Option<Gap> {
        frame.gap(index)
    }
}

impl PathRecord for TorqueRow {
    ghost records = { λ p. p.rows };

    #[tactic(auto, using(crate::proofs::Counts::few_rows))]
    fn of(frame: &PathFrame<'_>, index: usize) -> Option<TorqueRow> {
        frame.row(index)
    }
}

/// The records of one kind that are still to come.
#[derive(Clone, Copy, Debug, PartialEq, Eq)]
pub struct Each<'a, T> {
    pub(crate) frame: PathFrame<'a>,
    // The number of the next one.
    pub(crate) index: usize,
    pub(crate) kind: PhantomData<T>,
}

impl<'a, T> Each<'a, T> {
    // From the first record on.
    fn over(frame: PathFrame<'a>) -> Each<'a, T>
        ensures frame { result.frame.bytes.now ≡ frame.entry.bytes.now }
        ensures first { result.index ≡ 0 }
    {
        Each {
            frame,
            index: 0,
            kind: PhantomData,
        }
    }
}

impl<'a, T: PathRecord> Iterator for Each<'a, T> {
    type Item = T;

    ghost next_gives = { YieldsFirst (left T.records) };

    ghost remaining = { item_count (left T.records) };

    #[tactic(auto, using(crate::proofs::Nth::nth_below, crate::proofs::Nth::nth_next, crate::proofs::Nth::nth_none))]
    fn next(&mut self) -> Option<T> {
        let record = T::of(&self.frame, self.index)?;
        self.index += 1;
        Some(record)
    }
}

impl<'a> PathFrame<'a> {
    /// The samples in their order.
    #[tactic(auto, using(crate::proofs::Counts::few_samples))]
    pub fn samples(&self) -> Each<'a, Sample>
        ensures all { left (λ p. p.samples) result ≡ (path_of self.now.bytes.now).samples }
        ensures few { length (path_of self.now.bytes.now).samples ≤ 8192 }
    {
        Each::over(*self)
    }

    /// The gaps in their order.
    #[tactic(auto, using(crate::proofs::Counts::few_gaps))]
    pub fn gaps(&self) -> Each<'a, Gap>
        ensures all { left (λ p. p.gaps) result ≡ (path_of self.now.bytes.now).gaps }
        ensures few { length (path_of self.now.bytes.now).gaps ≤ 8192 }
    {
        Each::over(*self)
    }

    /// The torque rows in their order.
    #[tactic(auto, using(crate::proofs::Counts::few_rows))]
    pub fn rows(&self) -> Each<'a, TorqueRow>
        ensures all { left (λ p. p.rows) result ≡ (path_of self.now.bytes.now).rows }
        ensures few { length (path_of self.now.bytes.now).rows ≤ 8192 }
    {
        Each::over(*self)
    }
}

// A frame beside memory that was prepared for it.
ghost use Rattle.std.specs.Prelude.{◌≡◌, ◌<◌, ◌^◌};
ghost use Rattle.frame.specs.Views.{path_of};
ghost use Rattle.prepared.specs.Lists.{sample_bounds_of, row_bounds_of, Begins};

use super::bounds::{RowBounds, SampleBounds};
use frame::PathFrame;

/// An accepted frame and the bounds of its samples and rows, one for each.
#[derive(Clone, Copy, Debug, PartialEq, Eq)]
pub struct Prepared<'a> {
    pub frame: PathFrame<'a>,
    pub samples: &'a [SampleBounds],
    pub rows: &'a [RowBounds],
    ghost sampled: { samples.now ≡ sample_bounds_of (path_of frame.bytes.now) },
    ghost narrow: { (path_of frame.bytes.now).header.spacing < 2 ^ 16 },
    ghost rowed: { rows.now ≡ row_bounds_of (path_of frame.bytes.now) },
}

impl<'a> Prepared<'a> {
    /// The frame over memories whose fronts `prepare` filled for it.
    pub fn over(
        frame: PathFrame<'a>,
        samples: &'a [SampleBounds],
        rows: &'a [RowBounds],
    ) -> Prepared<'a>
        requires samples { Begins (sample_bounds_of (path_of frame.bytes.now)) samples.now }
        requires rows { Begins (row_bounds_of (path_of frame.bytes.now)) rows.now }
        ensures frame { result.frame.bytes.now ≡ frame.entry.bytes.now }
        ensures samples { result.samples.now ≡ sample_bounds_of (path_of frame.entry.bytes.now) }
        ensures rows { result.rows.now ≡ row_bounds_of (path_of frame.entry.bytes.now) }
    {
        let header = frame.header();
        Prepared {
            frame,
            samples: &samples[..header.samples as usize],
            rows: &rows[..header.rows as usize],
        }
    }
}

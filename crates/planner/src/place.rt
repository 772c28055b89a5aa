// A sample of a frame, by a number that the frame has.
ghost use Rattle.std.specs.Prelude.{◌≡◌, ◌<◌, length, slice_index_or};
ghost use Rattle.grade.specs.Ranks.{speed_rank};
ghost use Rattle.frame.specs.Views.{path_of};
ghost use Rattle.planner.specs.Starts.{no_sample_of, cap_of, SampleWithin};

use frame::PathFrame;
use grade::{Grade, Speed};
use record::Sample;

#[derive(Clone, Copy, Debug, PartialEq, Eq)]
pub(crate) struct SamplePlace<'a> {
    pub(crate) frame: PathFrame<'a>,
    pub(crate) at: usize,
    ghost there: { at < length (path_of frame.bytes.now).samples },
}

impl SamplePlace<'_> {
    pub(crate) fn sample(self) -> Sample
        ensures is { result ≡ slice_index_or (path_of self.entry.frame.bytes.now).samples self.entry.at no_sample_of }
        ensures within { SampleWithin result }
    {
        self.frame.sample(self.at).unwrap()
    }

    // The cap on its squared speed that its clause gives.
    pub(crate) fn speed_cap(self) -> Speed
        ensures { speed_rank result ≡ cap_of (path_of self.entry.frame.bytes.now) self.entry.at }
    {
        Speed::of_rank(self.frame.speed_cap(self.at).unwrap())
    }
}

// The torque rows of a frame, at its spacing: the questions that the frame passed make them sound.
ghost use Rattle.limit.specs.Numbers.{every_sample};
ghost use Rattle.frame.specs.Views.{path_of};
ghost use Rattle.sources.specs.Sources.{rows_of};
ghost use Rattle.sources.specs.Soundness.{rows_sound};

use frame::PathFrame;
use motion::{Row, Rows, Sides};

/// The torque rows of a frame.
#[derive(Clone, Copy, Debug, PartialEq, Eq)]
pub struct FrameRows<'a> {
    pub frame: PathFrame<'a>,
}

impl<'a> Rows for FrameRows<'a> {
    ghost spacing = { λ s. (path_of s.frame.bytes.now).header.spacing };

    ghost rows = { λ s. rows_of (path_of s.frame.bytes.now) };

    ghost sound = { λ s. rows_sound s.frame.bytes.now s.frame.sound };

    fn spacing(&self) -> u16 {
        self.frame.header().spacing
    }

    fn len(&self) -> usize {
        self.frame.header().rows as usize
    }

    #[tactic(auto, using(crate::proofs::Counted::rows_counted))]
    fn row(&self, at: usize) -> Row {
        self.frame.known_row(at)
    }
}

// Where a gap's rows begin is looked for, from any gap on.
impl<'a> Sides for FrameRows<'a> {
    ghost span = { λ s. every_sample };

    fn span(&self) -> usize {
        usize::MAX
    }
}

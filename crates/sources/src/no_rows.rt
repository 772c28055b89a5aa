// The torque rows of a frame that has none. With no row to look for, the loop over the samples stays small.
ghost use Rattle.std.specs.Prelude.{◌≡◌};
ghost use Rattle.limit.specs.Numbers.{every_sample};
ghost use Rattle.frame.specs.Views.{path_of};
ghost use Rattle.sources.specs.Sources.{rows_of};
ghost use Rattle.sources.specs.Soundness.{rows_sound};

use frame::PathFrame;
use motion::{Row, Rows, Sides};

/// The torque rows of a frame without any.
#[derive(Clone, Copy, Debug, PartialEq, Eq)]
pub struct NoRows<'a> {
    pub frame: PathFrame<'a>,
    ghost none: { (path_of frame.bytes.now).header.rows ≡ 0 },
}

impl<'a> Rows for NoRows<'a> {
    ghost spacing = { λ s. (path_of s.frame.bytes.now).header.spacing };

    ghost rows = { λ s. rows_of (path_of s.frame.bytes.now) };

    ghost sound = { λ s. rows_sound s.frame.bytes.now s.frame.sound };

    fn spacing(&self) -> u16 {
        self.frame.header().spacing
    }

    #[tactic(auto, using(crate::proofs::Counted::rows_counted))]
    fn len(&self) -> usize {
        0
    }

    // There is none whose number could be given.
    #[tactic(auto, using(crate::proofs::Counted::rows_counted))]
    fn row(&self, at: usize) -> Row {
        self.frame.known_row(at)
    }
}

impl<'a> Sides for NoRows<'a> {
    ghost span = { λ s. every_sample };

    fn span(&self) -> usize {
        usize::MAX
    }

    #[tactic(auto, using(crate::proofs::Counted::rows_counted))]
    fn first(&self, _gap: usize, _near: usize) -> usize {
        0
    }
}

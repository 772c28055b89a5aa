// The torque rows of a prepared frame: the rows themselves lie in the frame, and where the rows of a gap begin and the two
// inequalities of a row in the memory.
ghost use Rattle.frame.specs.Views.{path_of};
ghost use Rattle.sources.specs.Sources.{rows_of};
ghost use Rattle.sources.specs.Soundness.{rows_sound};

use super::view::Prepared;
use motion::{Row, Rows};

impl<'a> Rows for Prepared<'a> {
    ghost spacing = { λ s. (path_of s.frame.bytes.now).header.spacing };

    ghost rows = { λ s. rows_of (path_of s.frame.bytes.now) };

    ghost sound = { λ s. rows_sound s.frame.bytes.now s.frame.sound };

    fn spacing(&self) -> u16 {
        self.frame.header().spacing
    }

    fn len(&self) -> usize {
        self.rows.len()
    }

    #[tactic(auto, using(sources::proofs::Counted::rows_counted))]
    fn row(&self, at: usize) -> Row {
        self.frame.known_row(at)
    }
}

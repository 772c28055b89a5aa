// Where the rows of a gap begin, and the two inequalities of a row, as the memory has them.
ghost use Rattle.std.specs.Prelude.{length};

use super::view::Prepared;
use motion::{Sides, Triple};

impl<'a> Sides for Prepared<'a> {
    ghost span = { λ s. length s.samples.now };

    fn span(&self) -> usize {
        self.samples.len()
    }

    #[inline(always)]
    fn first(&self, gap: usize, _near: usize) -> usize {
        self.samples[gap].first_row as usize
    }

    #[inline(always)]
    fn on_right(&self, at: usize) -> Triple {
        let bounds = &self.rows[at];
        Triple {
            own: bounds.after,
            near: bounds.before,
            constant: bounds.right,
        }
    }

    #[inline(always)]
    fn on_left(&self, at: usize) -> Triple {
        let bounds = &self.rows[at];
        Triple {
            own: bounds.before,
            near: bounds.after,
            constant: bounds.left,
        }
    }
}

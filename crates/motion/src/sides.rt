// What a limit needs of rows of torque beside a sample: where the rows of a gap begin, and the two inequalities of a row. A source
// that has them ready gives them as they lie; elsewhere they are looked for and worked out.
ghost use Rattle.std.specs.Prelude.{◌≡◌, ℕ, ◌<◌, ◌≤◌, length};
ghost use Rattle.torque.specs.Rows.{row_at};
ghost use Rattle.motion.specs.Torques.{Fit, on_right_of, on_left_of};

use super::rows::Rows;
use super::searching::first_from;
use super::spaced_row::SpacedRow;
use super::triple::Triple;

pub trait Sides: Rows {
    // The gaps that `first` can be asked about: those below this number.
    ghost span: { Self → ℕ };

    fn span(&self) -> usize
        ensures { result ≡ span self.now };

    // The first row at a gap or past it; `near` is a place to look from.
    fn first(&self, gap: usize, near: usize) -> usize
        requires { gap < span self.now }
        ensures within { result ≤ length (Self.rows self.now) }
        ensures before { (k : ℕ) → k < result → (row_at (Self.rows self.now) k).gap < gap }
        ensures found { result < length (Self.rows self.now) → gap ≤ (row_at (Self.rows self.now) result).gap }
    {
        first_from(self, gap, near)
    }

    // The inequality of a row that bounds the sample after its gap.
    fn on_right(&self, at: usize) -> Triple
        requires { at < length (Self.rows self.now) }
        ensures is { result ≡ on_right_of (Self.spacing self.now) (row_at (Self.rows self.now) at) }
        ensures fits { Fit result }
    {
        SpacedRow {
            h: self.spacing(),
            row: self.row(at),
        }
        .on_right()
    }

    // The inequality of a row that bounds the sample before its gap.
    fn on_left(&self, at: usize) -> Triple
        requires { at < length (Self.rows self.now) }
        ensures is { result ≡ on_left_of (Self.spacing self.now) (row_at (Self.rows self.now) at) }
        ensures fits { Fit result }
    {
        SpacedRow {
            h: self.spacing(),
            row: self.row(at),
        }
        .on_left()
    }
}

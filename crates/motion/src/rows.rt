// Where the rows of torque lie, by gap, and the spacing h of the samples.
ghost use Rattle.std.specs.Prelude.{◌≡◌, ℕ, ◌<◌, List, length};
ghost use Rattle.torque.specs.declared.row.Row.{Row};
ghost use Rattle.torque.specs.Rows.{row_at, SoundRows};

use torque::Row;

pub trait Rows: Copy {
    ghost spacing: { Self → ℕ };

    ghost rows: { Self → List Row };

    // A ghost member and no law, so that a source may have a lifetime.
    ghost sound: { (s : Self) → SoundRows (spacing s) (rows s) };

    fn spacing(&self) -> u16
        ensures { result ≡ spacing self.now };

    fn len(&self) -> usize
        ensures { result ≡ length (rows self.now) };

    fn row(&self, at: usize) -> Row
        requires { at < length (rows self.now) }
        ensures { result ≡ row_at (rows self.now) at };
}

// Rows of torque in a slice.
ghost use Rattle.std.specs.Prelude.{◌≡◌, true};
ghost use Rattle.limit.specs.Numbers.{every_sample};
ghost use Rattle.torque.specs.Soundness.{sound_rows, are_sound_lem};

use motion::{Row, Rows, Sides};

// Rows at spacing h, known to be sound: `are_sound` asks for that first.
#[derive(Clone, Copy, Debug, PartialEq, Eq)]
pub struct RowSlice<'a> {
    pub h: u16,
    pub rows: &'a [Row],
    ghost sound: { sound_rows h rows.now ≡ true },
}

impl<'a> Rows for RowSlice<'a> {
    ghost spacing = { λ s. s.h };

    ghost rows = { λ s. s.rows.now };

    ghost sound = { λ s. are_sound_lem s.h s.rows.now s.sound };

    fn spacing(&self) -> u16 {
        self.h
    }

    fn len(&self) -> usize {
        self.rows.len()
    }

    fn row(&self, at: usize) -> Row {
        self.rows[at]
    }
}

impl<'a> Sides for RowSlice<'a> {
    ghost span = { λ s. every_sample };

    fn span(&self) -> usize {
        usize::MAX
    }
}

// Whether rows are sound: small numbers, weights that are not 0 and of one sign, gaps that never fall.
ghost use Rattle.std.specs.Prelude.{◌≡◌, true, ◌↔◌};
ghost use Rattle.torque.specs.Rows.{Sound, SoundRows};
ghost use Rattle.torque.specs.Soundness.{small, small_row, sound_row, in_turn, sound_rows};

use super::row::Row;

// Whether rows are sound at spacing h, and by gap: in one pass, up to the first row that is not sound or lies at a gap before
// another's.
pub fn are_sound(h: u16, rows: &[Row]) -> bool
    ensures test { result ≡ sound_rows h rows.now }
    ensures exactly { (result ≡ true) ↔ SoundRows h rows.now }
{
    let [first, ..] = rows else {
        return true;
    };
    is_sound(h, *first) && rows.is_sorted_by(|before, row| follows(h, *before, *row))
}

// Whether a row is sound at spacing h, and lies at no gap before that of the row before it.
fn follows(h: u16, before: Row, row: Row) -> bool
    ensures { result ≡ in_turn h before row }
{
    before.gap <= row.gap && is_sound(h, row)
}

// Whether one row is sound at spacing h.
pub fn is_sound(h: u16, row: Row) -> bool
    ensures test { result ≡ sound_row h row }
    ensures exactly { (result ≡ true) ↔ Sound h row }
{
    has_small_numbers(row) && row.d != 0 && row.has_sound_weight(h)
}

fn has_small_numbers(row: Row) -> bool
    ensures { result ≡ small_row row }
{
    [row.d, row.c, row.g, row.lo, row.hi]
        .iter()
        .all(|n| is_small(*n))
}

// Whether a number is small enough for a sound row.
pub fn is_small(n: i32) -> bool
    ensures { result ≡ small n }
{
    n.unsigned_abs() <= Row::SIZE
}

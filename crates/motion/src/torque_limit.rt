// What rows of torque allow. Rows lie by gap, so that a sample asks only those of the gaps beside it.
ghost use Rattle.std.specs.Prelude.{◌≡◌, ◌-◌};
ghost use Rattle.grade.specs.Ranks.{ranks, speed_rank};
ghost use Rattle.grade.specs.Tops.{speed_top};
ghost use Rattle.limit.specs.Numbers.{number_of, KeptExactly, Greatest};
ghost use Rattle.motion.specs.Rows.{WithinTorque, WithinTorqueAt};
ghost use Rattle.motion.specs.Torques.{row_number, torque};
ghost use Rattle.motion.specs.TorquesLemmas.{torque_low, torque_high, torque_outside, torque_mono};
ghost use Rattle.grade.proofs.Ranking.{at_most_everywhere};

use super::reading::{unbounded, value};
use super::rows::Rows;
use super::searching::first_row;
use super::sides::Sides;
use super::spaced_row::SpacedRow;
use grade::{Cell, Speed, lower};
use limit::{Allowed, Limit};

#[derive(Clone, Copy, Debug, PartialEq, Eq)]
pub struct Torque<R> {
    pub rows: R,
}

impl<R: Rows> Torque<R> {
    // What the rows of the gaps beside a sample allow, from any source of rows.
    fn allowed(&self, cells: &[Cell<Speed>], at: usize) -> Option<Speed>
        ensures { number_of speed_rank result ≡ torque (R.Rows.spacing self.now.rows) (R.Rows.rows self.now.rows) (ranks speed_rank cells.now) at }
    {
        let rows = &self.rows;
        let h = rows.spacing();
        let mut least: Speed = unbounded();
        for k in first_row(rows, at)..rows.len() {
            let row = rows.row(k);
            if row.gap as usize > at {
                return Some(least);
            }
            let spaced = SpacedRow { h, row };
            least = lower(least, spaced.allows(cells, at)?);
        }
        Some(least)
    }
}

impl<R: Sides> Limit<Speed> for Torque<R> {
    ghost number = { λ l p i. torque (R.Rows.spacing l.rows) (R.Rows.rows l.rows) p i };

    ghost low = { λ l p i w. torque_low (R.Rows.spacing l.rows) (R.Rows.rows l.rows) p i };

    ghost high = { λ l p i w. torque_high (R.Rows.spacing l.rows) (R.Rows.rows l.rows) p i };

    ghost outside = { λ l p i w h. torque_outside (R.Rows.spacing l.rows) (R.Rows.rows l.rows) p i h };

    ghost monotone = { λ l p q wp wq len le i. torque_mono (R.Rows.spacing l.rows) (R.Rows.rows l.rows) p q len (at_most_everywhere p q len le) i };

    fn evaluate(&self, cells: &[Cell<Speed>], at: usize) -> Option<Speed> {
        self.allowed(cells, at)
    }

    ghost span = { λ l. R.Sides.span l.rows - 1 };

    fn span(&self) -> usize {
        self.rows.span().saturating_sub(1)
    }

    fn place(&self, at: usize) -> usize {
        first_row(&self.rows, at)
    }

    #[inline(always)]
    fn within(&self, cells: &[Cell<Speed>], at: usize, most: i64, near: usize) -> Allowed {
        let rows = &self.rows;
        let left = rows.first(at - 1, near);
        let here = rows.first(at, left);
        let past = rows.first(at + 1, here);
        let before = value(cells, at - 1);
        let after = value(cells, at + 1);
        let mut number = most;
        for k in left..here {
            number = rows.on_right(k).within(before, number);
        }
        for k in here..past {
            number = rows.on_left(k).within(after, number);
        }
        Allowed { number, near: left }
    }
}

// What one row allows, by its number; the top where there is no such row.
pub fn row_bound<R: Rows>(
    limit: &Torque<R>,
    row: usize,
    cells: &[Cell<Speed>],
    at: usize,
) -> Option<Speed>
    ensures { number_of speed_rank result ≡ row_number (R.Rows.spacing limit.now.rows) (R.Rows.rows limit.now.rows) row (ranks speed_rank cells.now) at }
{
    let rows = &limit.rows;
    if row < rows.len() {
        let spaced = SpacedRow {
            h: rows.spacing(),
            row: rows.row(row),
        };
        spaced.allows(cells, at)
    } else {
        Some(unbounded())
    }
}

// Each limit has its own two functions, no generic ones: their contracts state its inequality in its own words.

// A profile keeps the rows exactly when each row whose two samples are there says of them
// 2h × lo ≤ d × (w(i + 1) − w(i)) + 2h × (c × w(i) + g) ≤ 2h × hi.
pub fn torque_kept_exactly<R: Rows>(limit: &Torque<R>)
    ensures { KeptExactly speed_top (torque (R.Rows.spacing limit.now.rows) (R.Rows.rows limit.now.rows)) (WithinTorque (R.Rows.spacing limit.now.rows) (R.Rows.rows limit.now.rows)) }
{}

// What rows give is the greatest squared speed at the sample that keeps the side of each row that bounds it, its
// neighbours as they are.
pub fn torque_greatest<R: Rows>(
    limit: &Torque<R>,
    cells: &[Cell<Speed>],
    at: usize,
) -> Option<Speed>
    ensures { Greatest speed_rank speed_top (WithinTorqueAt (R.Rows.spacing limit.now.rows) (R.Rows.rows limit.now.rows) (ranks speed_rank cells.now) at) result }
{
    limit.allowed(cells, at)
}

// A row at the spacing h of the samples, known to be sound, and what it allows the samples beside its gap. Each of the two
// has a text of its own: neighbour, factors and room all differ, and one text would take each of them.
ghost use Rattle.torque.specs.Rows.{Sound};

use super::reading::{samples, unbounded, value};
use super::triple::Triple;
use grade::{Cell, Speed, lower};
use torque::Row;

// Made and used up within one evaluation: it is never compared.
#[derive(Clone, Copy, Debug)]
pub(crate) struct SpacedRow {
    pub(crate) h: u16,
    pub(crate) row: Row,
    ghost sound: { Sound h row },
}

impl SpacedRow {
    ghost use Rattle.std.specs.Prelude.{◌≡◌, unsigned_abs};
    ghost use Rattle.grade.specs.Ranks.{ranks, speed_rank};
    ghost use Rattle.limit.specs.Numbers.{number_of};
    ghost use Rattle.torque.specs.Rows.{weight};
    ghost use Rattle.motion.specs.Torques.{Fit, on_right_of, on_left_of, bound, allows_after, allows_before, allows};

    // What the row allows at a sample.
    pub(crate) fn allows(self, cells: &[Cell<Speed>], at: usize) -> Option<Speed>
        ensures { number_of speed_rank result ≡ allows self.h (ranks speed_rank cells.now) at self.row }
    {
        let after = self.allows_after(cells, at)?;
        let before = self.allows_before(cells, at)?;
        Some(lower(after, before))
    }

    fn allows_after(self, cells: &[Cell<Speed>], at: usize) -> Option<Speed>
        ensures { number_of speed_rank result ≡ allows_after self.h (ranks speed_rank cells.now) at self.row }
    {
        if self.row.gap as usize + 1 == at && at < samples(cells) {
            self.bound_on_right(value(cells, at - 1))
        } else {
            Some(unbounded())
        }
    }

    fn allows_before(self, cells: &[Cell<Speed>], at: usize) -> Option<Speed>
        ensures { number_of speed_rank result ≡ allows_before self.h (ranks speed_rank cells.now) at self.row }
    {
        if self.row.gap as usize == at && at + 1 < samples(cells) {
            self.bound_on_left(value(cells, at + 1))
        } else {
            Some(unbounded())
        }
    }

    // What the sample after the gap may at most be beside the one before it.
    fn bound_on_right(self, before: Speed) -> Option<Speed>
        ensures { number_of speed_rank result ≡ bound (on_right_of self.h self.row) (speed_rank before) }
    {
        self.on_right().bound(before)
    }

    // The inequality that bounds the sample after the gap.
    pub(crate) fn on_right(self) -> Triple
        ensures is { result ≡ on_right_of self.h self.row }
        ensures fits { Fit result }
    {
        let row = self.row;
        if row.d < 0 {
            Triple {
                own: row.d.unsigned_abs(),
                near: self.weight_size(),
                constant: row.room_below(self.h),
            }
        } else {
            Triple {
                own: row.d as u32,
                near: row.weight(self.h) as u32,
                constant: row.room_above(self.h),
            }
        }
    }

    // What the sample before the gap may at most be beside the one after it.
    fn bound_on_left(self, after: Speed) -> Option<Speed>
        ensures { number_of speed_rank result ≡ bound (on_left_of self.h self.row) (speed_rank after) }
    {
        self.on_left().bound(after)
    }

    // The inequality that bounds the sample before the gap.
    pub(crate) fn on_left(self) -> Triple
        ensures is { result ≡ on_left_of self.h self.row }
        ensures fits { Fit result }
    {
        let row = self.row;
        if row.d < 0 {
            Triple {
                own: self.weight_size(),
                near: row.d.unsigned_abs(),
                constant: row.room_above(self.h),
            }
        } else {
            Triple {
                own: row.weight(self.h) as u32,
                near: row.d as u32,
                constant: row.room_below(self.h),
            }
        }
    }

    // The size of d − 2hc.
    fn weight_size(self) -> u32
        ensures { result ≡ unsigned_abs (weight self.h self.row) }
    {
        self.row.weight(self.h).unsigned_abs() as u32
    }
}

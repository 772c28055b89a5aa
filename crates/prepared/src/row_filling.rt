// Memory filled with the bounds of a frame's torque rows, from its front on.
ghost use Rattle.std.specs.Prelude.{◌≡◌, ◌≤◌, length};
ghost use Rattle.torque.specs.Rows.{Sound};
ghost use Rattle.frame.specs.Views.{path_of};
ghost use Rattle.prepared.specs.Lists.{bounds_of_row, row_bounds_of, begun_with};

use super::bounds::RowBounds;
use frame::PathFrame;
use motion::Row;

pub(crate) fn fill_rows(frame: PathFrame<'_>, rows: &mut [RowBounds])
    requires { (path_of frame.bytes.now).header.rows ≤ length rows.old }
    ensures { rows.new ≡ begun_with (row_bounds_of (path_of frame.entry.bytes.now)) rows.old }
{
    let header = frame.header();
    let front = &mut rows[..header.rows as usize];
    for (at, bounds) in front.iter_mut().enumerate() {
        *bounds = row_bounds(header.spacing, frame.known_row(at));
    }
}

// The two inequalities of a row at spacing h.
fn row_bounds(h: u16, row: Row) -> RowBounds
    requires { Sound h row }
    ensures { result ≡ bounds_of_row h row }
{
    let above = row.room_above(h);
    let below = row.room_below(h);
    let falls = row.d < 0;
    RowBounds {
        before: row.weight(h).unsigned_abs() as u32,
        after: row.d.unsigned_abs(),
        left: if falls { above } else { below },
        right: if falls { below } else { above },
    }
}

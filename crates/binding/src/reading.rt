// What is read of cells: those of a path's samples, and the cell of one, by an index that is known.
ghost use Rattle.std.specs.Prelude.{◌≡◌, ◌<◌, length, take};
ghost use Rattle.grade.specs.Ranks.{ranked, ranked_all};
ghost use Rattle.runs.specs.Sheets.{cell};
ghost use Rattle.frame.specs.Views.{path_of};

use frame::PathFrame;
use grade::{Cell, Grade};

// Of a memory, the cells of the path's samples, or all where there are fewer.
pub(crate) fn of_samples<'c, G>(frame: PathFrame<'_>, cells: &'c [Cell<G>]) -> &'c [Cell<G>]
    ensures { result.now ≡ take (path_of frame.entry.bytes.now).header.samples cells.now }
{
    &cells[..(frame.header().samples as usize).min(cells.len())]
}

pub(crate) fn cell_at<G: Grade>(cells: &[Cell<G>], at: usize) -> Cell<G>
    requires { at < length cells.now }
    ensures { ranked G.Grade.rank result ≡ cell (ranked_all G.Grade.rank cells.now) at }
{
    cells[at]
}

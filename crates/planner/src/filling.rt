// Memory filled with the cells of a frame's samples, from its front on.
ghost use Rattle.std.specs.Prelude.{◌≤◌, length, map};
ghost use Rattle.frame.specs.Views.{path_of};
ghost use Rattle.planner.specs.Starts.{Filled};

use super::cells::FromSample;
use super::making::samples;
use super::place::SamplePlace;
use frame::PathFrame;
use grade::{Cell, Grade};

pub(crate) fn fill<G: FromSample>(frame: PathFrame<'_>, cells: &mut [Cell<G>])
    requires { (path_of frame.bytes.now).header.samples ≤ length cells.old }
    ensures { Filled G.Grade.rank (map (G.FromSample.given (path_of frame.entry.bytes.now).header.lateral) (path_of frame.entry.bytes.now).samples) cells.old cells.new }
{
    let front = &mut cells[..samples(frame).count];
    for (at, cell) in front.iter_mut().enumerate() {
        *cell = G::cell_of(SamplePlace { frame, at });
    }
}

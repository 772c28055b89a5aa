// The cells that a frame's samples give, in each make of grade.
ghost use Rattle.std.specs.Prelude.{◌≡◌, ℕ, slice_index_or};
ghost use Rattle.grade.specs.declared.cell.Cell.{Cell};
ghost use Rattle.grade.specs.Ranks.{ranked};
ghost use Rattle.record.specs.declared.sample.Sample.{Sample};
ghost use Rattle.frame.specs.Views.{path_of};
ghost use Rattle.planner.specs.Starts.{beginning, no_sample_of, class_cell, speed_cell};

use super::place::SamplePlace;
use grade::{Cell, Class, Grade, Speed};

// A grade whose cells begin as a path's samples say.
pub(crate) trait FromSample: Grade {
    // The cell of a sample under the path's lateral number, as ranks.
    ghost given: { ℕ → Sample → Cell ℕ };

    fn cell_of(place: SamplePlace<'_>) -> Cell<Self>
        ensures { ranked Self.rank result ≡ given (path_of place.entry.frame.bytes.now).header.lateral (slice_index_or (path_of place.entry.frame.bytes.now).samples place.entry.at no_sample_of) };
}

impl FromSample for Class {
    ghost given = { λ a s. class_cell s };

    fn cell_of(place: SamplePlace<'_>) -> Cell<Class> {
        let sample = place.sample();
        let cap = Class::of_rank(sample.class_cap as u32);
        begin_cell(cap, Class::of_rank(sample.class_floor as u32))
    }
}

impl FromSample for Speed {
    ghost given = { speed_cell };

    fn cell_of(place: SamplePlace<'_>) -> Cell<Speed> {
        let sample = place.sample();
        begin_cell(place.speed_cap(), Speed::of_rank(sample.speed_floor))
    }
}

// A cell that begins: its value at the cap.
fn begin_cell<G: Grade>(cap: G, floor: G) -> Cell<G>
    ensures { ranked G.Grade.rank result ≡ beginning (G.Grade.rank cap) (G.Grade.rank floor) }
{
    Cell {
        value: cap,
        cap,
        floor,
    }
}

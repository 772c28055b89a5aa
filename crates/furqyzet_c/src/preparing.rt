// Preparing a frame in memory that C lends.
ghost use Rattle.std.specs.Prelude.{◌≡◌, cond, length, true};
ghost use Rattle.frame.specs.Paths.{accepted};
ghost use Rattle.frame.specs.Views.{path_of};
ghost use Rattle.prepared.specs.Lists.{sample_bounds_of, row_bounds_of, has_room, written, Begins};

use frame::PathFrame;
use prepared::{RowBounds, SampleBounds, prepare};

#[unsafe(no_mangle)]
pub extern "C" fn furqyzet_prepare(
    frame: &[u8],
    samples: &mut [SampleBounds],
    rows: &mut [RowBounds],
) -> u32
    requires { accepted frame.now ≡ true }
    ensures is { result ≡ cond (has_room (path_of frame.now) (length samples.old) (length rows.old)) 1 0 }
    ensures samples { samples.new ≡ written (has_room (path_of frame.now) (length samples.old) (length rows.old)) (sample_bounds_of (path_of frame.now)) samples.old }
    ensures rows { rows.new ≡ written (has_room (path_of frame.now) (length samples.old) (length rows.old)) (row_bounds_of (path_of frame.now)) rows.old }
    ensures ready { result ≡ 1 → Begins (sample_bounds_of (path_of frame.now)) samples.new × Begins (row_bounds_of (path_of frame.now)) rows.new }
{
    prepare(PathFrame::over(frame), samples, rows) as u32
}

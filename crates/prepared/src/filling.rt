// A frame prepared: both memories filled at their fronts.
ghost use Rattle.std.specs.Prelude.{◌≡◌, true, length};
ghost use Rattle.frame.specs.Views.{path_of};
ghost use Rattle.prepared.specs.Lists.{sample_bounds_of, row_bounds_of, has_room, written, Begins};

use super::bounds::{RowBounds, SampleBounds};
use super::row_filling::fill_rows;
use super::sample_filling::fill_samples;
use frame::PathFrame;

/// Fills the front of each memory with the bounds of the frame's samples and rows. It answers no, and changes nothing, where one
/// has fewer cells than the frame has samples or rows.
pub fn prepare(frame: PathFrame<'_>, samples: &mut [SampleBounds], rows: &mut [RowBounds]) -> bool
    ensures is { result ≡ has_room (path_of frame.entry.bytes.now) (length samples.old) (length rows.old) }
    ensures samples { samples.new ≡ written result (sample_bounds_of (path_of frame.entry.bytes.now)) samples.old }
    ensures rows { rows.new ≡ written result (row_bounds_of (path_of frame.entry.bytes.now)) rows.old }
    ensures ready { result ≡ true → Begins (sample_bounds_of (path_of frame.entry.bytes.now)) samples.new × Begins (row_bounds_of (path_of frame.entry.bytes.now)) rows.new }
{
    let header = frame.header();
    if samples.len() < header.samples as usize || rows.len() < header.rows as usize {
        return false;
    }
    fill_samples(frame, samples);
    fill_rows(frame, rows);
    true
}

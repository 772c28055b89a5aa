// Memory filled with the bounds of a frame's samples, from its front on.
ghost use Rattle.std.specs.Prelude.{◌≡◌, ◌≤◌, ◌<◌, length};
ghost use Rattle.frame.specs.Views.{path_of};
ghost use Rattle.sources.specs.Sources.{speed_steps};
ghost use Rattle.prepared.specs.Lists.{rows_before, up_to, down_from, bounds_at, sample_bounds_of, begun_with};

use super::bounds::SampleBounds;
use frame::PathFrame;

pub(crate) fn fill_samples(frame: PathFrame<'_>, samples: &mut [SampleBounds])
    requires { (path_of frame.bytes.now).header.samples ≤ length samples.old }
    ensures { samples.new ≡ begun_with (sample_bounds_of (path_of frame.entry.bytes.now)) samples.old }
{
    let front = &mut samples[..frame.header().samples as usize];
    let mut first_row = 0;
    for (at, bounds) in front.iter_mut().enumerate() {
        first_row = first_row_from(frame, at, first_row);
        *bounds = sample_bounds(frame, at, first_row);
    }
}

// The first row whose gap is not before a sample, looked for from a row on that is not past it.
#[tactic(auto, using(crate::proofs::Known::row_passed, crate::proofs::Known::row_stays, crate::proofs::Known::rows_ended))]
fn first_row_from(frame: PathFrame<'_>, at: usize, from: u32) -> u32
    requires { from ≤ rows_before at (path_of frame.bytes.now).rows }
    ensures { result ≡ rows_before at (path_of frame.entry.bytes.now).rows }
{
    let rows = frame.header().rows as u32;
    let mut row = from;
    while row < rows && (frame.known_row(row as usize).gap as usize) < at {
        row += 1;
    }
    row
}

// The bounds of a sample, whose first row is known.
#[tactic(auto, using(sources::proofs::Known::offset_at))]
fn sample_bounds(frame: PathFrame<'_>, at: usize, first_row: u32) -> SampleBounds
    requires there { at < (path_of frame.bytes.now).header.samples }
    requires first { first_row ≡ rows_before at (path_of frame.bytes.now).rows }
    ensures { result ≡ bounds_at (path_of frame.entry.bytes.now) at }
{
    SampleBounds {
        up: up_to(frame, at),
        down: down_from(frame, at),
        offset: frame.known_offset(at),
        first_row,
    }
}

// How far a sample may lie above the one before; 0 for the first.
#[tactic(auto, using(crate::proofs::Known::up_there))]
fn up_to(frame: PathFrame<'_>, at: usize) -> u32
    requires { at < (path_of frame.bytes.now).header.samples }
    ensures { result ≡ up_to (speed_steps (path_of frame.entry.bytes.now)) at }
{
    if at == 0 {
        return 0;
    }
    frame.known_gap(at - 1).up
}

// How far a sample may lie above the one after; 0 for the last.
#[tactic(auto, using(crate::proofs::Known::down_there, crate::proofs::Known::down_past))]
fn down_from(frame: PathFrame<'_>, at: usize) -> u32
    requires { at < (path_of frame.bytes.now).header.samples }
    ensures { result ≡ down_from (speed_steps (path_of frame.entry.bytes.now)) at }
{
    let gaps = (frame.header().samples as usize).saturating_sub(1);
    if at >= gaps {
        return 0;
    }
    frame.known_gap(at).down
}

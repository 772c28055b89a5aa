// The limit of squared speeds: a pair of ramp with a pair of average and torque.
ghost use Rattle.std.specs.Prelude.{◌≡◌};
ghost use Rattle.grade.specs.Ranks.{ranks, speed_rank};
ghost use Rattle.grade.specs.Tops.{speed_top};
ghost use Rattle.limit.specs.Numbers.{number_of, KeptExactly};
ghost use Rattle.motion.specs.SpeedLimits.{speed_limit_number, WithinSpeedLimit};

use super::offsets::OffsetSlice;
use super::rows::RowSlice;
use super::steps::StepSlice;
use grade::{Cell, Speed};
use limit::Limit;
use motion::{Step, make_speed_limit};

// The greatest squared speed that all three allow at a sample, or nothing.
pub fn speed_allowed(
    steps: &[Step],
    offsets: &[i32],
    rows: RowSlice<'_>,
    cells: &[Cell<Speed>],
    at: usize,
) -> Option<Speed>
    ensures { number_of speed_rank result ≡ speed_limit_number steps.now offsets.now rows.entry.h rows.entry.rows.now (ranks speed_rank cells.now) at }
{
    let limit = make_speed_limit(StepSlice { steps }, OffsetSlice { offsets }, rows);
    limit.evaluate(cells, at)
}

// A profile keeps the speed limit exactly when it keeps every step, every average and every row of torque.
pub fn speed_kept_exactly(steps: &[Step], offsets: &[i32], rows: RowSlice<'_>)
    ensures { KeptExactly speed_top (speed_limit_number steps.now offsets.now rows.entry.h rows.entry.rows.now) (WithinSpeedLimit steps.now offsets.now rows.entry.h rows.entry.rows.now) }
{}

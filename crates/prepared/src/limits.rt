// The speed limit of a prepared frame: the number of the frame's own.
ghost use Rattle.std.specs.Prelude.{◌≡◌};
ghost use Rattle.grade.specs.Tops.{speed_top};
ghost use Rattle.limit.specs.Numbers.{KeptExactly};
ghost use Rattle.frame.specs.Views.{path_of};
ghost use Rattle.sources.specs.Sources.{speed_number, WithinSpeedLimit};

use super::view::Prepared;
use motion::{SpeedLimit, make_speed_limit};
use sources::NoRows;

/// The speed limit of a prepared frame: a pair of a ramp over up and down with a pair of the average at each q and the torque rows.
pub fn speed_limit<'a>(
    prepared: Prepared<'a>,
) -> SpeedLimit<Prepared<'a>, Prepared<'a>, Prepared<'a>>
    ensures steps { result.first.steps.frame.bytes.now ≡ prepared.entry.frame.bytes.now }
    ensures offsets { result.second.first.offsets.frame.bytes.now ≡ prepared.entry.frame.bytes.now }
    ensures rows { result.second.second.rows.frame.bytes.now ≡ prepared.entry.frame.bytes.now }
    ensures kept { KeptExactly speed_top (speed_number (path_of prepared.entry.frame.bytes.now)) (WithinSpeedLimit (path_of prepared.entry.frame.bytes.now)) }
{
    make_speed_limit(prepared, prepared, prepared)
}

/// The same limit of a frame that has no torque rows.
pub fn speed_limit_without_rows<'a>(
    prepared: Prepared<'a>,
) -> SpeedLimit<Prepared<'a>, Prepared<'a>, NoRows<'a>>
    requires { (path_of prepared.frame.bytes.now).header.rows ≡ 0 }
    ensures steps { result.first.steps.frame.bytes.now ≡ prepared.entry.frame.bytes.now }
    ensures offsets { result.second.first.offsets.frame.bytes.now ≡ prepared.entry.frame.bytes.now }
    ensures rows { result.second.second.rows.frame.bytes.now ≡ prepared.entry.frame.bytes.now }
{
    let rows = NoRows {
        frame: prepared.frame,
    };
    make_speed_limit(prepared, prepared, rows)
}

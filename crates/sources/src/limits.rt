// A frame's two limits.
ghost use Rattle.std.specs.Prelude.{◌≡◌};
ghost use Rattle.grade.specs.Tops.{class_top, speed_top};
ghost use Rattle.limit.specs.Numbers.{KeptExactly};
ghost use Rattle.frame.specs.Views.{path_of};
ghost use Rattle.sources.specs.Sources.{class_number, speed_number, WithinClassLimit, WithinSpeedLimit};

use super::no_rows::NoRows;
use super::offsets::FrameOffsets;
use super::rows::FrameRows;
use super::steps::FrameSteps;
use frame::PathFrame;
use grade::{Class, Speed};
use motion::{Ramp, SpeedLimit, make_speed_limit};
use std::marker::PhantomData;

/// The class limit of a frame: a ramp over rise and fall of its gaps.
pub fn class_limit<'a>(frame: PathFrame<'a>) -> Ramp<FrameSteps<'a, Class>>
    ensures steps { result.steps.frame.bytes.now ≡ frame.entry.bytes.now }
    ensures kept { KeptExactly class_top (class_number (path_of frame.entry.bytes.now)) (WithinClassLimit (path_of frame.entry.bytes.now)) }
{
    Ramp {
        steps: FrameSteps {
            frame,
            make: PhantomData,
        },
    }
}

/// The speed limit of a frame: a pair of a ramp over up and down with a pair of the average at each q and the torque rows.
pub fn speed_limit<'a>(
    frame: PathFrame<'a>,
) -> SpeedLimit<FrameSteps<'a, Speed>, FrameOffsets<'a>, FrameRows<'a>>
    ensures steps { result.first.steps.frame.bytes.now ≡ frame.entry.bytes.now }
    ensures offsets { result.second.first.offsets.frame.bytes.now ≡ frame.entry.bytes.now }
    ensures rows { result.second.second.rows.frame.bytes.now ≡ frame.entry.bytes.now }
    ensures kept { KeptExactly speed_top (speed_number (path_of frame.entry.bytes.now)) (WithinSpeedLimit (path_of frame.entry.bytes.now)) }
{
    let steps = FrameSteps {
        frame,
        make: PhantomData,
    };
    make_speed_limit(steps, FrameOffsets { frame }, FrameRows { frame })
}

/// The same limit of a frame that has no torque rows.
pub fn speed_limit_without_rows<'a>(
    frame: PathFrame<'a>,
) -> SpeedLimit<FrameSteps<'a, Speed>, FrameOffsets<'a>, NoRows<'a>>
    requires { (path_of frame.bytes.now).header.rows ≡ 0 }
    ensures steps { result.first.steps.frame.bytes.now ≡ frame.entry.bytes.now }
    ensures offsets { result.second.first.offsets.frame.bytes.now ≡ frame.entry.bytes.now }
    ensures rows { result.second.second.rows.frame.bytes.now ≡ frame.entry.bytes.now }
{
    let steps = FrameSteps {
        frame,
        make: PhantomData,
    };
    make_speed_limit(steps, FrameOffsets { frame }, NoRows { frame })
}

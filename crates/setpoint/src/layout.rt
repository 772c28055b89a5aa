// Where the fields of a setpoint frame lie, counted from byte 0, and how wide they are.
ghost use Rattle.std.specs.Prelude.{◌≡◌};
ghost use Rattle.setpoint.specs.Frames.{frame_size_of};

use runs::Samples;

pub const VERSION: u8 = 1;

pub const VERSION_AT: usize = 0;

// The version, the length and the count of samples.
pub const HEADER_SIZE: usize = 7;

// The count of samples, which the length counts too.
pub const COUNT_SIZE: u32 = 2;

// The class and the speed of a sample.
pub const SETPOINT_SIZE: usize = 3;

// How many bytes a frame of so many samples has.
pub fn frame_size(samples: Samples) -> usize
    ensures { result ≡ frame_size_of samples.count }
{
    HEADER_SIZE + SETPOINT_SIZE * samples.count
}

// Caps on squared speed, exactly as the IEEE values of a top speed and a curvature give them.
#![tactic(auto)]

mod bend;
mod straight;

pub use bend::bend_cap;
pub use straight::speed_cap;

// The greatest squared speed, in units of 1/65536 m²/s².
pub const MOST: u32 = 2147483647;
// A binary32 pattern without its sign bit is below this.
pub const SIGN: u32 = 0x8000_0000;

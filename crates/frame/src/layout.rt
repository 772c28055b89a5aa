// Where the header's fields lie, counted from byte 0 of the frame, and what they may be. Samples, gaps and torque rows follow it.

// The version and the length.
pub const VERSION_AT: usize = 0;

pub const LENGTH_AT: usize = 1;

pub const BODY_AT: usize = 5;
// The body's own fields.
pub const SAMPLES_AT: usize = 5;

pub const SPACING_AT: usize = 7;

pub const LATERAL_AT: usize = 9;

pub const ROWS_AT: usize = 13;

pub const HEADER_SIZE: usize = 15;

pub const VERSION: u8 = 1;
// The least length of a body: the body's own fields.
pub const LEAST_BODY: usize = 10;

pub const LEAST_SAMPLES: u16 = 2;

pub const MOST_SAMPLES: u16 = 4096;

pub const MOST_ROWS: u16 = 8192;

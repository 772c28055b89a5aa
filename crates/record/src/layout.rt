// Where each field of a record lies, counted from the record's first byte. Reader, writer and the places of refusals use these alone.

pub const SAMPLE_SIZE: usize = 20;

pub const SAMPLE_KIND: usize = 0;

pub const SAMPLE_CLASS_CAP: usize = 1;

pub const SAMPLE_CLASS_FLOOR: usize = 2;

pub const SAMPLE_ZERO: usize = 3;

pub const SAMPLE_FIRST: usize = 4;

pub const SAMPLE_SECOND: usize = 8;

pub const SAMPLE_SPEED_FLOOR: usize = 12;

pub const SAMPLE_Q: usize = 16;

pub const GAP_SIZE: usize = 12;

pub const GAP_RISE: usize = 0;

pub const GAP_FALL: usize = 1;

pub const GAP_ZERO: usize = 2;

pub const GAP_UP: usize = 4;

pub const GAP_DOWN: usize = 8;

pub const ROW_SIZE: usize = 24;

pub const ROW_GAP: usize = 0;

pub const ROW_ZERO: usize = 2;

pub const ROW_D: usize = 4;

pub const ROW_C: usize = 8;

pub const ROW_G: usize = 12;

pub const ROW_LO: usize = 16;

pub const ROW_HI: usize = 20;

// The greatest permit class.
pub const CLASS_TOP: u8 = 7;

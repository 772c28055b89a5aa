// A gap between two neighbouring samples: how much classes and squared speeds may rise and fall over it.
ghost use Rattle.std.specs.Prelude.{◌≡◌, ◌+◌, ◌≤◌, length};
ghost use Rattle.record.specs.Gaps.{gap_words_at, gap_read, words_of_gap, gap_bytes};

use super::layout::{CLASS_TOP, GAP_DOWN, GAP_FALL, GAP_RISE, GAP_SIZE, GAP_UP, GAP_ZERO};
use caps::MOST;
use words::{be16, be32};

#[derive(Clone, Copy, Debug, PartialEq, Eq)]
pub struct Gap {
    // Of classes, over the gap in the path's direction.
    pub rise: u8,
    pub fall: u8,
    // Of squared speeds, in units of 1/65536 m²/s².
    pub up: u32,
    pub down: u32,
}

// A gap as its record lies in the frame.
#[derive(Clone, Copy, Debug, PartialEq, Eq)]
pub struct GapWords {
    pub gap: Gap,
    pub zero: u16,
}

#[derive(Clone, Copy, Debug, PartialEq, Eq)]
pub enum GapFault {
    Rise,
    Fall,
    // The zero bytes are not zero.
    ZeroBytes,
    Up,
    Down,
}

impl GapWords {
    // The record that begins at an offset.
    pub fn at(bytes: &[u8], at: usize) -> GapWords
        requires { at + 12 ≤ length bytes.now }
        ensures { result ≡ gap_words_at bytes.now at }
    {
        GapWords {
            gap: Gap {
                rise: bytes[at + GAP_RISE],
                fall: bytes[at + GAP_FALL],
                up: be32(bytes, at + GAP_UP),
                down: be32(bytes, at + GAP_DOWN),
            },
            zero: be16(bytes, at + GAP_ZERO),
        }
    }

    // The gap, or the first question that says no. No `TryFrom`: it is read as samples and rows are, which ask of their place too.
    pub fn read(self) -> Result<Gap, GapFault>
        ensures { result ≡ gap_read self }
    {
        let gap = self.gap;
        if gap.rise > CLASS_TOP {
            return Err(GapFault::Rise);
        }
        if gap.fall > CLASS_TOP {
            return Err(GapFault::Fall);
        }
        if self.zero != 0 {
            return Err(GapFault::ZeroBytes);
        }
        if gap.up > MOST {
            return Err(GapFault::Up);
        }
        if gap.down > MOST {
            return Err(GapFault::Down);
        }
        Ok(gap)
    }
}

impl Gap {
    // The bytes of the record.
    pub fn bytes(self) -> [u8; GAP_SIZE]
        ensures { result ≡ gap_bytes (words_of_gap self) }
    {
        let [u3, u2, u1, u0] = self.up.to_be_bytes();
        let [d3, d2, d1, d0] = self.down.to_be_bytes();
        [self.rise, self.fall, 0, 0, u3, u2, u1, u0, d3, d2, d1, d0]
    }
}

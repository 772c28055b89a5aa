// Frames for tests: a small path of four samples, three gaps and two torque rows, and changes to it.
use clause::ClauseKind;
use frame::{PathFrame, read};
use std::alloc::{AllocError, Global};

pub const SAMPLES: usize = 15;

pub const GAPS: usize = SAMPLES + 4 * 20;

pub const ROWS: usize = GAPS + 3 * 12;

pub const SIZE: usize = ROWS + 2 * 24;

// Zero bytes, but for what a legal frame can't do without: version, length, counts, spacing, and two rows' d.
pub fn path(heap: Global) -> Result<Vec<u8>, AllocError> {
    let mut bytes = vec![in heap; 0u8; SIZE]?;
    set(&mut bytes, 0, 1);
    set(&mut bytes, 4, (SIZE - 5) as u8);
    set(&mut bytes, 6, 4);
    set(&mut bytes, 8, 1);
    set(&mut bytes, 14, 2);
    set(&mut bytes, ROWS + 7, 3);
    set(&mut bytes, ROWS + 24 + 7, 3);
    Ok(bytes)
}

pub fn set(bytes: &mut Vec<u8>, at: usize, value: u8) {
    if let Some(byte) = bytes.get_mut(at) {
        *byte = value;
    }
}

// A number of 32 bits at an offset.
pub fn set_word(bytes: &mut Vec<u8>, at: usize, value: u32) {
    let [high, upper, lower, low] = value.to_be_bytes();
    set(bytes, at, high);
    set(bytes, at.saturating_add(1), upper);
    set(bytes, at.saturating_add(2), lower);
    set(bytes, at.saturating_add(3), low);
}

// The number and the place of a refusal, or nothing where the bytes are accepted.
pub fn refusal(bytes: &[u8]) -> Option<(u8, u64)> {
    let refusal = read(bytes).err()?.refusal();
    Some((refusal.number, refusal.place))
}

// The cap of the second sample where its clause has this kind and these numbers; nothing where the frame is refused.
pub fn cap(
    heap: Global,
    lateral: u32,
    kind: ClauseKind,
    first: u32,
    second: u32,
) -> Result<Option<u32>, AllocError> {
    let mut bytes = path(heap)?;
    set_word(&mut bytes, 9, lateral);
    set(&mut bytes, SAMPLES + 20, kind.into());
    set_word(&mut bytes, SAMPLES + 24, first);
    set_word(&mut bytes, SAMPLES + 28, second);
    let bytes = bytes.as_slice();
    if read(bytes).is_err() {
        return Ok(None);
    }
    Ok(PathFrame::over(bytes).speed_cap(1))
}

// Every refusal number, each at two places where the frame has two.
use super::building::{GAPS, ROWS, SAMPLES, SIZE, path, refusal, set};
use std::test::Fail;

// One byte of a legal frame changed: where, to what, and the refusal's number and place.
#[derive(Clone, Copy, Debug, PartialEq, Eq)]
struct Change {
    at: usize,
    to: u8,
    number: u8,
    place: usize,
}

// Changes to the header, to samples and to gaps.
static FRONT: [Change; 31] = [
    Change {
        at: 0,
        to: 0,
        number: 11,
        place: 0,
    },
    Change {
        at: 0,
        to: 2,
        number: 11,
        place: 0,
    },
    Change {
        at: 1,
        to: 1,
        number: 12,
        place: 1,
    },
    Change {
        at: 4,
        to: 0,
        number: 12,
        place: 1,
    },
    Change {
        at: 6,
        to: 1,
        number: 14,
        place: 5,
    },
    Change {
        at: 5,
        to: 17,
        number: 14,
        place: 5,
    },
    Change {
        at: 8,
        to: 0,
        number: 15,
        place: 7,
    },
    Change {
        at: 9,
        to: 128,
        number: 16,
        place: 9,
    },
    Change {
        at: 9,
        to: 255,
        number: 16,
        place: 9,
    },
    Change {
        at: 13,
        to: 33,
        number: 17,
        place: 13,
    },
    Change {
        at: 13,
        to: 255,
        number: 17,
        place: 13,
    },
    Change {
        at: 6,
        to: 5,
        number: 18,
        place: 1,
    },
    Change {
        at: 14,
        to: 3,
        number: 18,
        place: 1,
    },
    Change {
        at: SAMPLES,
        to: 4,
        number: 20,
        place: SAMPLES,
    },
    Change {
        at: SAMPLES + 60,
        to: 255,
        number: 20,
        place: SAMPLES + 60,
    },
    Change {
        at: SAMPLES + 3,
        to: 1,
        number: 21,
        place: SAMPLES + 3,
    },
    Change {
        at: SAMPLES + 43,
        to: 9,
        number: 21,
        place: SAMPLES + 43,
    },
    Change {
        at: SAMPLES + 1,
        to: 8,
        number: 22,
        place: SAMPLES + 1,
    },
    Change {
        at: SAMPLES + 62,
        to: 8,
        number: 22,
        place: SAMPLES + 62,
    },
    Change {
        at: SAMPLES + 4,
        to: 1,
        number: 23,
        place: SAMPLES + 4,
    },
    Change {
        at: SAMPLES + 31,
        to: 1,
        number: 23,
        place: SAMPLES + 28,
    },
    Change {
        at: SAMPLES + 12,
        to: 128,
        number: 24,
        place: SAMPLES + 12,
    },
    Change {
        at: SAMPLES + 52,
        to: 128,
        number: 24,
        place: SAMPLES + 52,
    },
    Change {
        at: SAMPLES + 19,
        to: 1,
        number: 25,
        place: SAMPLES + 16,
    },
    Change {
        at: SAMPLES + 76,
        to: 255,
        number: 25,
        place: SAMPLES + 76,
    },
    Change {
        at: GAPS,
        to: 8,
        number: 30,
        place: GAPS,
    },
    Change {
        at: GAPS + 25,
        to: 8,
        number: 30,
        place: GAPS + 25,
    },
    Change {
        at: GAPS + 3,
        to: 1,
        number: 31,
        place: GAPS + 2,
    },
    Change {
        at: GAPS + 14,
        to: 1,
        number: 31,
        place: GAPS + 14,
    },
    Change {
        at: GAPS + 4,
        to: 128,
        number: 32,
        place: GAPS + 4,
    },
    Change {
        at: GAPS + 20,
        to: 200,
        number: 32,
        place: GAPS + 20,
    },
];

// Changes to torque rows.
static BACK: [Change; 16] = [
    Change {
        at: ROWS + 1,
        to: 3,
        number: 40,
        place: ROWS,
    },
    Change {
        at: ROWS + 24,
        to: 1,
        number: 40,
        place: ROWS + 24,
    },
    Change {
        at: ROWS + 3,
        to: 1,
        number: 41,
        place: ROWS + 2,
    },
    Change {
        at: ROWS + 26,
        to: 7,
        number: 41,
        place: ROWS + 26,
    },
    Change {
        at: ROWS + 1,
        to: 2,
        number: 42,
        place: ROWS + 24,
    },
    Change {
        at: ROWS + 1,
        to: 1,
        number: 42,
        place: ROWS + 24,
    },
    Change {
        at: ROWS + 4,
        to: 2,
        number: 43,
        place: ROWS + 4,
    },
    Change {
        at: ROWS + 8,
        to: 128,
        number: 43,
        place: ROWS + 8,
    },
    Change {
        at: ROWS + 24 + 12,
        to: 5,
        number: 43,
        place: ROWS + 24 + 12,
    },
    Change {
        at: ROWS + 24 + 20,
        to: 5,
        number: 43,
        place: ROWS + 24 + 20,
    },
    Change {
        at: ROWS + 19,
        to: 1,
        number: 44,
        place: ROWS + 16,
    },
    Change {
        at: ROWS + 24 + 17,
        to: 1,
        number: 44,
        place: ROWS + 24 + 16,
    },
    Change {
        at: ROWS + 7,
        to: 0,
        number: 45,
        place: ROWS + 4,
    },
    Change {
        at: ROWS + 24 + 7,
        to: 0,
        number: 45,
        place: ROWS + 24 + 4,
    },
    Change {
        at: ROWS + 11,
        to: 2,
        number: 46,
        place: ROWS + 4,
    },
    Change {
        at: ROWS + 24 + 9,
        to: 255,
        number: 46,
        place: ROWS + 24 + 4,
    },
];

#[test]
fn a_legal_frame_is_accepted(rt: HostRuntime) -> Result<(), Fail> {
    let bytes = path(rt.alloc())?;
    assert_eq!(rt; refusal(bytes.as_slice()), None);
    Ok(())
}

#[test]
fn short_bytes_are_refused(rt: HostRuntime) -> Result<(), Fail> {
    let bytes = path(rt.alloc())?;
    assert!(rt; bytes.len() == SIZE);
    assert_eq!(rt; refusal(&bytes[0..0]), Some((10, 0)));
    assert_eq!(rt; refusal(&bytes[0..4]), Some((10, 0)));
    assert_eq!(rt; refusal(&bytes[0..5]), Some((12, 1)));
    assert_eq!(rt; refusal(&[1, 0, 0, 0, 0]), Some((13, 1)));
    assert_eq!(rt;
        refusal(&[1, 0, 0, 0, 9, 0, 4, 0, 1, 0, 0, 0, 0, 0]),
        Some((13, 1))
    );
    Ok(())
}

#[test]
fn changes_in_front_are_refused(rt: HostRuntime) -> Result<(), Fail> {
    for one in FRONT.iter() {
        let mut bytes = path(rt.alloc())?;
        set(&mut bytes, one.at, one.to);
        assert_eq!(rt;
            refusal(bytes.as_slice()),
            Some((one.number, one.place as u64))
        );
    }
    Ok(())
}

#[test]
fn changes_of_rows_are_refused(rt: HostRuntime) -> Result<(), Fail> {
    for one in BACK.iter() {
        let mut bytes = path(rt.alloc())?;
        set(&mut bytes, one.at, one.to);
        assert_eq!(rt;
            refusal(bytes.as_slice()),
            Some((one.number, one.place as u64))
        );
    }
    Ok(())
}

// Order of numbers, not of bytes: 21 before 22, 41 before 42, 44 before 45.
#[test]
fn lower_numbers_are_asked_first(rt: HostRuntime) -> Result<(), Fail> {
    let mut bytes = path(rt.alloc())?;
    set(&mut bytes, 8, 0);
    set(&mut bytes, 9, 128);
    assert_eq!(rt;
        refusal(bytes.as_slice()),
        Some((15, 7)),
        "h and a are both wrong"
    );
    let mut bytes = path(rt.alloc())?;
    set(&mut bytes, SAMPLES + 1, 8);
    set(&mut bytes, SAMPLES + 3, 1);
    assert_eq!(rt; refusal(bytes.as_slice()), Some((21, (SAMPLES + 3) as u64)));
    let mut bytes = path(rt.alloc())?;
    set(&mut bytes, ROWS + 1, 1);
    set(&mut bytes, ROWS + 24 + 3, 1);
    assert_eq!(rt; refusal(bytes.as_slice()), Some((41, (ROWS + 26) as u64)));
    let mut bytes = path(rt.alloc())?;
    set(&mut bytes, ROWS + 7, 0);
    set(&mut bytes, ROWS + 19, 1);
    assert_eq!(rt; refusal(bytes.as_slice()), Some((44, (ROWS + 16) as u64)));
    Ok(())
}
